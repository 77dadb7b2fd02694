// The tree check: 1, 2, then 3, 4, 16 and 17 arc by arc, then 18.
ghost use Rattle.std.specs.Prelude.{◌≡◌, ◌≤◌, ◌&&◌, length, eqb, ltb, leb};
ghost use Rattle.limits.specs.Limits.{most_arcs, most_cost};
ghost use Rattle.game.specs.Tree.{tree_of};
ghost use Rattle.answer_forms.specs.Answer.{fault, ◌then◌};
ghost use Rattle.answers.specs.Checks.{tree_check, one_by_one, arc_check, mark_check};
ghost use Rattle.answer_forms.specs.Checked.{check_of};

use crate::arc::{check_arc, check_count};
use crate::mark::{check_mark, check_someone};
use answer_forms::{Reason, Refusal};
use limits::MOST_ARCS;

// 3, 4, 16 and 17 at arc k.
fn check_at(k: usize, parent: u16, cost: u32, mark: u16, has_child: bool) -> Result<(), Refusal>
    ensures { check_of result
        ≡ ((fault (leb k parent) 3 k then fault (ltb most_cost cost) 4 k)
        then (fault (ltb 1 mark) 16 k then fault (eqb mark 1 && has_child) 17 k)) }
{
    check_arc(k, parent, cost)?;
    check_mark(k, mark, has_child)
}

// 3, 4, 16 and 17 arc by arc. Which vertices have a child is found out first, in one pass.
fn check_arcs(parents: &[u16], costs: &[u32], marks: &[u16]) -> Result<(), Refusal>
    requires parents_len_bound { length parents.now ≤ most_arcs }
    requires parents_len { length parents.now ≡ length costs.now }
    requires parents_len_2 { length parents.now ≡ length marks.now }
    ensures { check_of result ≡ one_by_one
        (λ k. arc_check parents.now costs.now k
        then mark_check parents.now marks.now k)
        (length parents.now) }
{
    let has_child = dead_ends::find_children(parents);
    for i in 0..parents.len() {
        check_at(i + 1, parents[i], costs[i], marks[i], has_child[i + 1])?;
    }
    Ok(())
}

#[tactic(auto, unfolding(answers::specs::Checks::tree_check))]
pub fn check_tree(parents: &[u16], costs: &[u32], marks: &[u16]) -> Result<(), Refusal>
    ensures { check_of result
        ≡ tree_check (tree_of parents.now costs.now marks.now) }
{
    check_count(parents.len(), MOST_ARCS, Reason::ArcCount)?;
    if parents.len() != costs.len() || parents.len() != marks.len() {
        return Err(Reason::TreeLengths.at(0));
    }
    check_arcs(parents, costs, marks)?;
    check_someone(marks)
}
