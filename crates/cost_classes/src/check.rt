// The check of a tree with costs in classes: 32, 1, 2, then the check of the tree with the summed costs.
ghost use Rattle.std.specs.Prelude.{◌≡◌};
ghost use Rattle.answer_forms.specs.Checked.{check_of};
ghost use Rattle.answers.specs.Classes.{classed_of, classed_check};

use crate::sums::write_sums;
use answer_forms::{Reason, Refusal};
use checks::{check_count, check_tree};
use limits::{MOST_ARCS, MOST_CLASSES};

#[tactic(auto, unfolding(answers::specs::Classes::classed_check))]
pub fn check_classed(
    parents: &[u16],
    costs: &[u32],
    marks: &[u16],
    classes: usize,
) -> Result<(), Refusal>
    ensures { check_of result
        ≡ classed_check (classed_of parents.now costs.now marks.now classes) }
{
    check_count(classes, MOST_CLASSES, Reason::ClassCount)?;
    let m = parents.len();
    check_count(m, MOST_ARCS, Reason::ArcCount)?;
    if costs.len() != classes * m {
        return Err(Reason::TreeLengths.at(0));
    }
    let mut sums = [0u32; MOST_ARCS];
    write_sums(costs, classes, &mut sums[0..m]);
    check_tree(parents, &sums[0..m], marks)
}
