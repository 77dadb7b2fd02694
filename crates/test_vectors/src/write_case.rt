// The cases of the job writer: the note's bytes, the four lists, then the length of the output.
use crate::job_lists::MOST_BYTES;
use crate::output::output;
use crate::print::others;
use crate::read::entries;
use crate::{print, read};
use engine::Refusal;
use std::io;
use std::io::Write;
use test_lines::list::MOST;
use test_lines::print::bytes;
use test_lines::{number, rest};

// The most bytes of a note in a case: more than a job's may have.
const MOST_NOTE: usize = 300;

// The answer, the job's bytes, and whether the others are as before the call.
pub fn written<W: Write>(
    writer: &mut W,
    answer: Result<usize, Refusal>,
    out: &[u8],
) -> io::Result<()> {
    print::number(writer, "written", answer)?;
    match answer {
        Ok(n) => {
            let k = n.min(out.len());
            bytes(writer, &out[..k])?;
            others(writer, rest::is(out, n, 9))
        }
        Err(_) => others(writer, rest::is(out, 0, 9)),
    }
}

// Both answers, then what is written.
fn write<W: Write>(
    writer: &mut W,
    note: &[u8],
    parents: &[u16],
    costs: &[u32],
    caps: &[u64],
    proposals: &[i64],
    out: &mut [u8],
) -> io::Result<()> {
    let length = job::job_length(note, parents, costs, caps, proposals);
    let answer = job::write_job(note, parents, costs, caps, proposals, out);
    print::number(writer, "length", length)?;
    write!(writer, ", ")?;
    written(writer, answer, out)
}

// Field 4 has the caps, field 5 the proposals.
fn with_members<W: Write>(
    writer: &mut W,
    line: &[u8],
    note: &[u8],
    parents: &[u16],
    costs: &[u32],
    out: &mut [u8],
) -> Option<io::Result<()>> {
    let mut caps = [0u64; MOST];
    let mut proposals = [0i64; MOST];
    let caps = entries(line, 4, number::unsigned, &mut caps)?;
    let proposals = entries(line, 5, number::signed, &mut proposals)?;
    Some(write(writer, note, parents, costs, caps, proposals, out))
}

// Field 1 has the note, field 2 the parents, field 3 the costs, field 6 the output's length.
pub fn run<W: Write>(writer: &mut W, line: &[u8]) -> Option<io::Result<()>> {
    let mut note = [0u8; MOST_NOTE];
    let mut parents = [0u16; MOST];
    let mut costs = [0u32; MOST];
    let mut out = [9u8; MOST_BYTES];
    let note = read::bytes(line, 1, &mut note)?;
    let parents = entries(line, 2, number::unsigned, &mut parents)?;
    let costs = entries(line, 3, number::unsigned, &mut costs)?;
    let out = output(line, 6, &mut out)?;
    with_members(writer, line, note, parents, costs, out)
}
