// The job writer: the public entries that make a job of a note and lists.
ghost use Rattle.std.specs.Prelude.{◌≡◌};
ghost use Rattle.answer_forms.specs.Checked.{check_of, answer_of};
ghost use Rattle.job_bytes.specs.JobBytes.{contents};
ghost use Rattle.job.specs.Writer.{note_check, contents_check, length_answer, write_answer, write_output};

use answer_forms::{Reason, Refusal};
use job_bytes::Lists;
use job_checks::{check_space, dead_end_members};
use job_form::LONGEST_NOTE;

// 19.
fn check_note(size: usize) -> Result<(), Refusal>
    ensures { check_of result ≡ note_check size }
{
    if LONGEST_NOTE < size {
        Err(Reason::NoteLength.at(0))
    } else {
        Ok(())
    }
}

// 1 to 4, 6 and 7 on caps, then on proposals, then 19.
fn check_contents(
    note: &[u8],
    parents: &[u16],
    costs: &[u32],
    caps: &[u64],
    proposals: &[i64],
) -> Result<(), Refusal>
    ensures { check_of result
        ≡ contents_check (contents note.now parents.now costs.now caps.now
        proposals.now) }
{
    let members = dead_end_members(parents, costs)?;
    engine::check_caps(members, caps)?;
    engine::check_proposal(members, proposals)?;
    check_note(note.len())
}

// The length of the job that write_job writes; its refusals but 20.
#[tactic(auto, unfolding(crate::specs::Writer::length_answer))]
pub fn job_length(
    note: &[u8],
    parents: &[u16],
    costs: &[u32],
    caps: &[u64],
    proposals: &[i64],
) -> Result<usize, Refusal>
    ensures { answer_of result
        ≡ length_answer (contents note.now parents.now costs.now caps.now
        proposals.now) }
{
    check_contents(note, parents, costs, caps, proposals)?;
    Ok(note.len() + 8 * parents.len() + 16 * caps.len() + 16)
}

// Writes a job of version 1 to the front of `out`, whose other bytes stay: every dead end is marked. The tree's 1 to 4,
// 6 and 7 on caps, then on proposals, 19, then 20.
pub fn write_job(
    note: &[u8],
    parents: &[u16],
    costs: &[u32],
    caps: &[u64],
    proposals: &[i64],
    out: &mut [u8],
) -> Result<usize, Refusal>
    ensures result_value { answer_of result
        ≡ write_answer (contents note.now parents.now costs.now caps.now
        proposals.now) out.old }
    ensures out_after { out.new
        ≡ write_output (contents note.now parents.now costs.now caps.now
        proposals.now) out.old }
{
    let length = job_length(note, parents, costs, caps, proposals)?;
    check_space(out.len(), length)?;
    let lists = Lists {
        note,
        parents,
        costs,
        caps,
        proposals,
    };
    job_bytes::put_plain(out, &lists);
    Ok(length)
}
