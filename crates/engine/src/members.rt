// The number of members, and the members' vertices in a lent list.
ghost use Rattle.std.specs.Prelude.{◌≡◌};
ghost use Rattle.game.specs.Tree.{tree_of};
ghost use Rattle.answers.specs.Members.{member_count_answer, members_answer, members_list};
ghost use Rattle.answer_forms.specs.Checked.{answer_of};

use answer_forms::Refusal;

// The tree's refusals.
#[tactic(auto, unfolding(answers::specs::Members::member_count_answer))]
pub fn count_members(parents: &[u16], costs: &[u32], marks: &[u16]) -> Result<usize, Refusal>
    ensures { answer_of result
        ≡ member_count_answer (tree_of parents.now costs.now marks.now) }
{
    checks::check_tree(parents, costs, marks)?;
    Ok(tree::count_members(marks))
}

// Writes the members' vertices in rising order. The tree's refusals, then 8.
#[tactic(auto, unfolding(answers::specs::Members::members_answer, answers::specs::Members::members_list))]
pub fn list_members(
    parents: &[u16],
    costs: &[u32],
    marks: &[u16],
    out: &mut [u16],
) -> Result<usize, Refusal>
    ensures result_value { answer_of result
        ≡ members_answer (tree_of parents.now costs.now marks.now)
        out.old }
    ensures out_after { out.new
        ≡ members_list (tree_of parents.now costs.now marks.now)
        out.old }
{
    checks::check_tree(parents, costs, marks)?;
    let n = tree::count_members(marks);
    checks::check_output(out.len(), n)?;
    tree::write_members(marks, out);
    Ok(n)
}
