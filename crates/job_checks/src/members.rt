// The members of a tree whose dead ends are marked, as those of a job of version 1 are.
ghost use Rattle.std.specs.Prelude.{◌≡◌};
ghost use Rattle.game.specs.Tree.{dead_end_tree};
ghost use Rattle.answers.specs.Members.{member_count_answer};
ghost use Rattle.answer_forms.specs.Checked.{answer_of};

use answer_forms::Refusal;
use limits::MOST_ARCS;

// The number of members. Refusals 1, 2, then 3 and 4 arc by arc.
pub fn dead_end_members(parents: &[u16], costs: &[u32]) -> Result<usize, Refusal>
    ensures { answer_of result
        ≡ member_count_answer (dead_end_tree parents.now costs.now) }
{
    // One mark an arc on every list that 1 accepts.
    let n = parents.len().min(MOST_ARCS);
    let mut marks = [0u16; MOST_ARCS];
    engine::mark_dead_ends(parents, costs, &mut marks[0..n])
}
