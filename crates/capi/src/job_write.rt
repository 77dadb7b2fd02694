// The job writer, and the conversions between the versions.
ghost use Rattle.std.specs.Prelude.{◌≡◌};
ghost use Rattle.job_bytes.specs.JobBytes.{contents};
ghost use Rattle.job.specs.Writer.{length_answer, write_answer, write_output};
ghost use Rattle.answer_forms.specs.Checked.{answer_of};
ghost use Rattle.job2.specs.Converter.{to2_answer, to2_output, to1_answer, to1_output};
ghost use Rattle.capi.specs.Structs.{encode_job_length, decode_job_length};

use engine::Refusal;

#[repr(C)]
#[derive(Clone, Copy, Debug, PartialEq, Eq)]
pub struct ZilqodurJobLength {
    pub refusal: u32,
    pub place: usize,
    pub length: usize,
}

impl From<Result<usize, Refusal>> for ZilqodurJobLength {
    ghost from_gives = { λ found s. s ≡ encode_job_length (answer_of found) };

    fn from(found: Result<usize, Refusal>) -> Self {
        match found {
            Ok(length) => ZilqodurJobLength {
                refusal: 0,
                place: 0,
                length,
            },
            Err(refusal) => ZilqodurJobLength {
                refusal: refusal.number(),
                place: refusal.place,
                length: 0,
            },
        }
    }
}

#[unsafe(no_mangle)]
pub extern "C" fn zilqodur_job_length(
    note: &[u8],
    parents: &[u16],
    costs: &[u32],
    caps: &[u64],
    proposals: &[i64],
) -> ZilqodurJobLength
    ensures result_value { decode_job_length result
        ≡ length_answer (contents note.now parents.now costs.now caps.now
        proposals.now) }
    ensures value { result ≡ encode_job_length (decode_job_length result) }
{
    ZilqodurJobLength::from(job::job_length(note, parents, costs, caps, proposals))
}

#[unsafe(no_mangle)]
pub extern "C" fn zilqodur_write_job(
    note: &[u8],
    parents: &[u16],
    costs: &[u32],
    caps: &[u64],
    proposals: &[i64],
    out: &mut [u8],
) -> ZilqodurJobLength
    ensures result_value { decode_job_length result
        ≡ write_answer (contents note.now parents.now costs.now caps.now
        proposals.now) out.old }
    ensures value { result ≡ encode_job_length (decode_job_length result) }
    ensures out_after { out.new
        ≡ write_output (contents note.now parents.now costs.now caps.now
        proposals.now) out.old }
{
    ZilqodurJobLength::from(job::write_job(note, parents, costs, caps, proposals, out))
}

#[unsafe(no_mangle)]
pub extern "C" fn zilqodur_job_to_2(bytes: &[u8], out: &mut [u8]) -> ZilqodurJobLength
    ensures result_value { decode_job_length result ≡ to2_answer bytes.now out.old }
    ensures value { result ≡ encode_job_length (decode_job_length result) }
    ensures out_after { out.new ≡ to2_output bytes.now out.old }
{
    ZilqodurJobLength::from(job2::job_to_2(bytes, out))
}

#[unsafe(no_mangle)]
pub extern "C" fn zilqodur_job_to_1(bytes: &[u8], out: &mut [u8]) -> ZilqodurJobLength
    ensures result_value { decode_job_length result ≡ to1_answer bytes.now out.old }
    ensures value { result ≡ encode_job_length (decode_job_length result) }
    ensures out_after { out.new ≡ to1_output bytes.now out.old }
{
    ZilqodurJobLength::from(job2::job_to_1(bytes, out))
}
