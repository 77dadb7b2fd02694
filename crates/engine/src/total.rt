// The total of a proposal against the whole cost.
ghost use Rattle.std.specs.Prelude.{◌≡◌};
ghost use Rattle.game.specs.Tree.{tree_of};
ghost use Rattle.answers.specs.Audit.{total_answer};
ghost use Rattle.answer_forms.specs.Checked.{answer_of};

use crate::proposed::check_proposed;
use answer_forms::Refusal;
use limits::MOST_ARCS;

// The proposal less the whole cost, 0 included. The tree's refusals, then 6 and 7.
#[tactic(auto, unfolding(answers::specs::Audit::total_answer))]
pub fn check_total(
    parents: &[u16],
    costs: &[u32],
    marks: &[u16],
    proposal: &[i64],
) -> Result<i64, Refusal>
    ensures { answer_of result
        ≡ total_answer (tree_of parents.now costs.now marks.now)
        proposal.now }
{
    check_proposed(parents, costs, marks, proposal)?;
    let m = parents.len();
    let mut counted = [0u32; MOST_ARCS];
    tree::write_counted(parents, costs, marks, &mut counted[0..m]);
    let parts = proposal::parts_of(proposal);
    let owed = parts.minus + tree::whole_cost(&counted[0..m]);
    Ok(proposal::less(parts.plus, owed))
}
