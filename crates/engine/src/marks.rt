// The marks of the dead ends, for a tree without spare plots.
ghost use Rattle.std.specs.Prelude.{◌≡◌};
ghost use Rattle.answers.specs.DeadEnds.{dead_ends_answer, dead_ends_list};
ghost use Rattle.answer_forms.specs.Checked.{answer_of};

use answer_forms::Refusal;

// Writes 1 at each dead end and 0 elsewhere; answers the number of members. 1 to 4, then 8.
#[tactic(auto, unfolding(answers::specs::DeadEnds::dead_ends_answer, answers::specs::DeadEnds::dead_ends_list))]
pub fn mark_dead_ends(parents: &[u16], costs: &[u32], out: &mut [u16]) -> Result<usize, Refusal>
    ensures result_value { answer_of result
        ≡ dead_ends_answer parents.now costs.now out.old }
    ensures out_after { out.new
        ≡ dead_ends_list parents.now costs.now out.old }
{
    checks::check_plain(parents, costs)?;
    checks::check_output(out.len(), parents.len())?;
    dead_ends::write_dead_ends(parents, out);
    Ok(tree::count_members(out))
}
