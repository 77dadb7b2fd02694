// The public entries over a job's bytes of version 1: the reader here, the writer in `writer`.
#![tactic(auto)]

mod writer;

ghost use Rattle.std.specs.Prelude.{◌≡◌};
ghost use Rattle.job.specs.Reader.{lent, job_answer, job_lists, job_read_of};

use answer_forms::Refusal;
use job_bytes::Version;
pub use writer::{job_length, write_job};

// What a job holds: the number of arcs and of members, and the length of the note.
#[derive(Clone, Copy, Debug, PartialEq, Eq)]
pub struct JobRead {
    pub arcs: usize,
    pub members: usize,
    pub note: usize,
}

// Reads a job of version 1 into the front of the four lists; their other entries stay. 10, then the checks of the job.
#[tactic(auto, unfolding(crate::specs::Reader::read_check, crate::specs::Reader::job_answer, crate::specs::Reader::job_lists))]
pub fn read(
    bytes: &[u8],
    parents: &mut [u16],
    costs: &mut [u32],
    caps: &mut [u64],
    proposals: &mut [i64],
) -> Result<JobRead, Refusal>
    ensures result_value { job_read_of result
        ≡ job_answer bytes.now
        (lent parents.old costs.old caps.old proposals.old) }
    ensures proposals_after { lent parents.new costs.new caps.new proposals.new
        ≡ job_lists bytes.now
        (lent parents.old costs.old caps.old proposals.old) }
{
    job_checks::check_room(&[parents.len(), costs.len(), caps.len(), proposals.len()])?;
    job_checks::check_job(Version::One, bytes)?;
    let t = job_checks::read_contents(Version::One, bytes, parents, costs, caps, proposals);
    Ok(JobRead {
        arcs: t.arcs,
        members: t.members,
        note: t.arc_offset,
    })
}
