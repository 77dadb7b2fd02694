// The check of an output list.
ghost use Rattle.std.specs.Prelude.{◌≡◌};
ghost use Rattle.answers.specs.Checks.{length_check};
ghost use Rattle.answer_forms.specs.Checked.{check_of};

use answer_forms::{Reason, Refusal};

// 8: an output list has exactly the length of what is written.
pub fn check_output(length: usize, wanted: usize) -> Result<(), Refusal>
    ensures { check_of result ≡ length_check wanted length }
{
    if length == wanted {
        Ok(())
    } else {
        Err(Reason::OutputLength.at(0))
    }
}
