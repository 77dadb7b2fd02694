// The check of a tree's parents and costs, for a tree that has no marks yet: 1, 2, then 3 and 4 arc by arc.
ghost use Rattle.std.specs.Prelude.{◌≡◌, length};
ghost use Rattle.answers.specs.Checks.{plain_check, one_by_one, arc_check};
ghost use Rattle.answer_forms.specs.Checked.{check_of};

use crate::arc::{check_arc, check_count};
use answer_forms::{Reason, Refusal};
use limits::MOST_ARCS;

// 3 and 4 arc by arc.
fn check_arcs(parents: &[u16], costs: &[u32]) -> Result<(), Refusal>
    requires { length parents.now ≡ length costs.now }
    ensures { check_of result
        ≡ one_by_one (arc_check parents.now costs.now) (length parents.now) }
{
    for i in 0..parents.len() {
        check_arc(i + 1, parents[i], costs[i])?;
    }
    Ok(())
}

#[tactic(auto, unfolding(answers::specs::Checks::plain_check))]
pub fn check_plain(parents: &[u16], costs: &[u32]) -> Result<(), Refusal>
    ensures { check_of result ≡ plain_check parents.now costs.now }
{
    check_count(parents.len(), MOST_ARCS, Reason::ArcCount)?;
    if parents.len() != costs.len() {
        return Err(Reason::TreeLengths.at(0));
    }
    check_arcs(parents, costs)
}
