// The job readers of both versions.
ghost use Rattle.std.specs.Prelude.{◌≡◌};
ghost use Rattle.job.specs.Reader.{lent, job_answer, job_lists, job_read_of};
ghost use Rattle.job2.specs.Reader.{lent2, job2_answer, job2_lists};
ghost use Rattle.capi.specs.Structs.{encode_job, decode_job};

use engine::Refusal;
use job::JobRead;

#[repr(C)]
#[derive(Clone, Copy, Debug, PartialEq, Eq)]
pub struct ZilqodurJob {
    pub refusal: u32,
    pub place: usize,
    pub arcs: usize,
    pub members: usize,
    pub note: usize,
}

impl From<Result<JobRead, Refusal>> for ZilqodurJob {
    ghost from_gives = { λ found s. s ≡ encode_job (job_read_of found) };

    fn from(found: Result<JobRead, Refusal>) -> Self {
        match found {
            Ok(job) => ZilqodurJob {
                refusal: 0,
                place: 0,
                arcs: job.arcs,
                members: job.members,
                note: job.note,
            },
            Err(refusal) => ZilqodurJob {
                refusal: refusal.number(),
                place: refusal.place,
                arcs: 0,
                members: 0,
                note: 0,
            },
        }
    }
}

#[unsafe(no_mangle)]
pub extern "C" fn zilqodur_read_job(
    bytes: &[u8],
    parents: &mut [u16],
    costs: &mut [u32],
    caps: &mut [u64],
    proposals: &mut [i64],
) -> ZilqodurJob
    ensures result_value { decode_job result
        ≡ job_answer bytes.now
        (lent parents.old costs.old caps.old proposals.old) }
    ensures value { result ≡ encode_job (decode_job result) }
    ensures proposals_after { lent parents.new costs.new caps.new proposals.new
        ≡ job_lists bytes.now
        (lent parents.old costs.old caps.old proposals.old) }
{
    ZilqodurJob::from(job::read(bytes, parents, costs, caps, proposals))
}

#[unsafe(no_mangle)]
pub extern "C" fn zilqodur_read_job2(
    bytes: &[u8],
    parents: &mut [u16],
    costs: &mut [u32],
    marks: &mut [u16],
    caps: &mut [u64],
    proposals: &mut [i64],
    floors: &mut [u64],
) -> ZilqodurJob
    ensures result_value { decode_job result
        ≡ job2_answer bytes.now
        (lent2 parents.old costs.old marks.old caps.old
        proposals.old floors.old) }
    ensures value { result ≡ encode_job (decode_job result) }
    ensures floors_after { lent2 parents.new costs.new marks.new caps.new
        proposals.new floors.new
        ≡ job2_lists bytes.now
        (lent2 parents.old costs.old marks.old caps.old
        proposals.old floors.old) }
{
    ZilqodurJob::from(job2::read(bytes, parents, costs, marks, caps, proposals, floors))
}
