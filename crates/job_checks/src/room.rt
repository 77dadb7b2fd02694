// The check of the lengths of lists that are lent for a job's values.
ghost use Rattle.std.specs.Prelude.{◌≡◌, ltb};
ghost use Rattle.limits.specs.Limits.{most_arcs};
ghost use Rattle.answer_forms.specs.Answer.{fault};
ghost use Rattle.answer_forms.specs.Checked.{check_of};
ghost use Rattle.job_checks.specs.JobCheck.{room_check};

use answer_forms::{Reason, Refusal};
use limits::MOST_ARCS;

// 10: a list has room for the largest tree.
fn check_length(length: usize) -> Result<(), Refusal>
    ensures { check_of result ≡ fault (ltb length most_arcs) 10 0 }
{
    if length < MOST_ARCS {
        return Err(Reason::JobRoom.at(0));
    }
    Ok(())
}

// 10 list by list.
#[tactic(auto, unfolding(crate::specs::JobCheck::room_check))]
pub fn check_room(lengths: &[usize]) -> Result<(), Refusal>
    ensures { check_of result ≡ room_check lengths.now }
{
    for length in lengths {
        let found = check_length(*length);
        let Ok(()) = found else {
            return found;
        };
    }
    Ok(())
}
