// All parent lists of a few arcs, one after the other in a lent list.
ghost use Rattle.std.specs.Prelude.{◌≡◌};
ghost use Rattle.answers.specs.ParentLists.{step_answer, step_list};
ghost use Rattle.engine.specs.Outcomes.{step_of};

use answer_forms::Refusal;

#[derive(Clone, Copy, Debug, PartialEq, Eq)]
pub enum Stepped {
    // The list is the next one.
    Next,
    // The list was the last one.
    End,
}

// Writes the next list over the one that is lent; at the last one the end, and the list stays. 31, then 3.
#[tactic(auto, unfolding(answers::specs::ParentLists::step_answer, answers::specs::ParentLists::step_list))]
pub fn next_parents(parents: &mut [u16]) -> Result<Stepped, Refusal>
    ensures result_value { step_of result ≡ step_answer parents.old }
    ensures parents_after { parents.new ≡ step_list parents.old }
{
    checks::check_small(parents)?;
    if parent_lists::step(parents) {
        Ok(Stepped::Next)
    } else {
        Ok(Stepped::End)
    }
}
