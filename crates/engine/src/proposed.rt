// The check of a tree and a proposal.
ghost use Rattle.std.specs.Prelude.{◌≡◌};
ghost use Rattle.game.specs.Tree.{tree_of};
ghost use Rattle.answer_forms.specs.Checked.{check_of};
ghost use Rattle.answers.specs.Audit.{audit_check};

use answer_forms::Refusal;

// The tree's refusals, then 6 and 7.
pub fn check_proposed(
    parents: &[u16],
    costs: &[u32],
    marks: &[u16],
    proposal: &[i64],
) -> Result<(), Refusal>
    ensures { check_of result
        ≡ audit_check (tree_of parents.now costs.now marks.now)
        proposal.now }
{
    checks::check_tree(parents, costs, marks)?;
    checks::check_proposal(tree::count_members(marks), proposal)
}
