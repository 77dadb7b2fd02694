// The check of an output's length.
ghost use Rattle.std.specs.Prelude.{◌≡◌};
ghost use Rattle.answer_forms.specs.Checked.{check_of};
ghost use Rattle.job_checks.specs.JobCheck.{space_check};

use answer_forms::{Reason, Refusal};

// 20.
pub fn check_space(space: usize, size: usize) -> Result<(), Refusal>
    ensures { check_of result ≡ space_check space size }
{
    if space < size {
        Err(Reason::JobSpace.at(0))
    } else {
        Ok(())
    }
}
