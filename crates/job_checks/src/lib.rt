// The checks of a job's bytes in a version, and the values of a job that was accepted.
// A check that answers what its caller does is opened by let else, the form that document 01 names for the reader. The
// count of the tree's members answers a number besides, so `check_values` opens it by `?`.
#![tactic(auto)]

mod contents;
mod members;
mod room;
mod space;
mod values;

ghost use Rattle.std.specs.Prelude.{◌≡◌};
ghost use Rattle.job_checks.specs.JobCheck.{job_check};
ghost use Rattle.answer_forms.specs.Checked.{check_of};

use answer_forms::Refusal;
pub use contents::read_contents;
use job_bytes::Version;
pub use members::dead_end_members;
pub use room::check_room;
pub use space::check_space;

// 11 to 13; 14 or 16; 1, then 3, 4 and 17 arc by arc, 18, 15; 7 on caps, proposals and floors; 27.
#[tactic(auto, unfolding(crate::specs::JobCheck::job_check))]
pub fn check_job(version: Version, bytes: &[u8]) -> Result<(), Refusal>
    ensures { check_of result ≡ job_check version bytes.now }
{
    let form = job_form::check_form(version, bytes);
    let Ok(()) = form else {
        return form;
    };
    let fillers = job_form::check_fillers(version, bytes);
    let Ok(()) = fillers else {
        return fillers;
    };
    values::check_values(version, bytes)
}
