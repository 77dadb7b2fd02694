// The cases of the version 1 reader: the lengths of the four lists that it fills, then the job's bytes. Each entry is 9
// before the call.
use crate::job_lists::MOST_BYTES;
use crate::print::others;
use crate::{job_lists, print, read};
use engine::Refusal;
use job::JobRead;
use std::io;
use std::io::Write;
use test_lines::list::MOST;
use test_lines::{field, list};

// The lists that the reader fills.
const LISTS: usize = 4;

// Whether all entries past the front are as before the call.
fn kept(
    arcs: usize,
    members: usize,
    parents: &[u16],
    costs: &[u32],
    caps: &[u64],
    proposals: &[i64],
) -> bool {
    job_lists::arcs_kept(arcs, parents, costs) && job_lists::members_kept(members, caps, proposals)
}

fn job_read<W: Write>(
    writer: &mut W,
    answer: Result<JobRead, Refusal>,
    parents: &[u16],
    costs: &[u32],
    caps: &[u64],
    proposals: &[i64],
) -> io::Result<()> {
    match answer {
        Ok(
            JobRead {
                arcs,
                members,
                note,
            },
        ) => {
            job_lists::counts(writer, arcs, members, note)?;
            job_lists::arc_fronts(writer, arcs, parents, costs)?;
            job_lists::member_fronts(writer, members, caps, proposals)?;
            others(writer, kept(arcs, members, parents, costs, caps, proposals))
        }
        Err(r) => {
            print::refusal(writer, r)?;
            others(writer, kept(0, 0, parents, costs, caps, proposals))
        }
    }
}

fn run_entry<W: Write>(
    writer: &mut W,
    bytes: &[u8],
    parents: &mut [u16],
    costs: &mut [u32],
    caps: &mut [u64],
    proposals: &mut [i64],
) -> io::Result<()> {
    let answer = job::read(bytes, parents, costs, caps, proposals);
    job_read(writer, answer, parents, costs, caps, proposals)
}

// Field 1 has the lists' lengths, field 2 the bytes.
pub fn run<W: Write>(writer: &mut W, line: &[u8]) -> Option<io::Result<()>> {
    let mut lengths = [0usize; LISTS];
    if list::read_up_to(field::nth(line, 1), MOST, &mut lengths)? != LISTS {
        return None;
    }
    let mut bytes = [0u8; MOST_BYTES];
    let bytes = read::bytes(line, 2, &mut bytes)?;
    let mut parents = [9u16; MOST];
    let mut costs = [9u32; MOST];
    let mut caps = [9u64; MOST];
    let mut proposals = [9i64; MOST];
    Some(run_entry(
        writer,
        bytes,
        &mut parents[..lengths[0]],
        &mut costs[..lengths[1]],
        &mut caps[..lengths[2]],
        &mut proposals[..lengths[3]],
    ))
}
