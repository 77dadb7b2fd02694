// The public entries over a job's bytes of version 2: the reader here, the conversions in `converter`.
#![tactic(auto)]

mod back;
mod converter;

ghost use Rattle.std.specs.Prelude.{◌≡◌};
ghost use Rattle.job.specs.Reader.{job_read_of};
ghost use Rattle.job2.specs.Reader.{lent2, job2_answer, job2_lists};

use answer_forms::Refusal;
pub use converter::{job_to_1, job_to_2};
use job::JobRead;
use job_bytes::Version;

// Reads a job of version 2 into the front of the six lists; their other entries stay. 10, then the checks of the job.
#[tactic(auto, unfolding(crate::specs::Reader::read2_check, crate::specs::Reader::job2_answer, crate::specs::Reader::job2_lists))]
pub fn read(
    bytes: &[u8],
    parents: &mut [u16],
    costs: &mut [u32],
    marks: &mut [u16],
    caps: &mut [u64],
    proposals: &mut [i64],
    floors: &mut [u64],
) -> Result<JobRead, Refusal>
    ensures result_value { job_read_of result
        ≡ job2_answer bytes.now
        (lent2 parents.old costs.old marks.old caps.old
        proposals.old floors.old) }
    ensures floors_after { lent2 parents.new costs.new marks.new caps.new
        proposals.new floors.new
        ≡ job2_lists bytes.now
        (lent2 parents.old costs.old marks.old caps.old
        proposals.old floors.old) }
{
    job_checks::check_room(&[
        parents.len(),
        costs.len(),
        marks.len(),
        caps.len(),
        proposals.len(),
        floors.len(),
    ])?;
    job_checks::check_job(Version::Two, bytes)?;
    let t = job_checks::read_contents(Version::Two, bytes, parents, costs, caps, proposals);
    job_bytes::read_column(bytes, 2, t.arc_offset + 2, 8, t.arcs, marks);
    job_bytes::read_column(bytes, 8, t.member_offset + 16, 24, t.members, floors);
    Ok(JobRead {
        arcs: t.arcs,
        members: t.members,
        note: t.arc_offset,
    })
}
