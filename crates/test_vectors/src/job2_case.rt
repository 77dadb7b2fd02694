// The cases of the version 2 reader: as those of version 1, with six lists.
use crate::job_lists::MOST_BYTES;
use crate::print::others;
use crate::{job_lists, print, read};
use engine::Refusal;
use job::JobRead;
use std::io;
use std::io::Write;
use test_lines::list::MOST;
use test_lines::{field, list, rest};

// The lists that the reader fills.
const LISTS: usize = 6;

fn kept(
    arcs: usize,
    members: usize,
    parents: &[u16],
    costs: &[u32],
    marks: &[u16],
    caps: &[u64],
    proposals: &[i64],
    floors: &[u64],
) -> bool {
    job_lists::arcs_kept(arcs, parents, costs)
        && rest::is(marks, arcs, 9)
        && job_lists::members_kept(members, caps, proposals)
        && rest::is(floors, members, 9)
}

fn job_read<W: Write>(
    writer: &mut W,
    answer: Result<JobRead, Refusal>,
    parents: &[u16],
    costs: &[u32],
    marks: &[u16],
    caps: &[u64],
    proposals: &[i64],
    floors: &[u64],
) -> io::Result<()> {
    match answer {
        Ok(
            JobRead {
                arcs,
                members,
                note,
            },
        ) => {
            job_lists::counts(writer, arcs, members, note)?;
            job_lists::arc_fronts(writer, arcs, parents, costs)?;
            job_lists::front(writer, arcs, marks)?;
            job_lists::member_fronts(writer, members, caps, proposals)?;
            job_lists::front(writer, members, floors)?;
            others(
                writer,
                kept(
                    arcs, members, parents, costs, marks, caps, proposals, floors,
                ),
            )
        }
        Err(r) => {
            print::refusal(writer, r)?;
            others(
                writer,
                kept(0, 0, parents, costs, marks, caps, proposals, floors),
            )
        }
    }
}

fn run_entry<W: Write>(
    writer: &mut W,
    bytes: &[u8],
    parents: &mut [u16],
    costs: &mut [u32],
    marks: &mut [u16],
    caps: &mut [u64],
    proposals: &mut [i64],
    floors: &mut [u64],
) -> io::Result<()> {
    let answer = job2::read(bytes, parents, costs, marks, caps, proposals, floors);
    job_read(
        writer, answer, parents, costs, marks, caps, proposals, floors,
    )
}

// Field 1 has the lists' lengths, field 2 the bytes.
pub fn run<W: Write>(writer: &mut W, line: &[u8]) -> Option<io::Result<()>> {
    let mut lengths = [0usize; LISTS];
    if list::read_up_to(field::nth(line, 1), MOST, &mut lengths)? != LISTS {
        return None;
    }
    let mut bytes = [0u8; MOST_BYTES];
    let bytes = read::bytes(line, 2, &mut bytes)?;
    let mut parents = [9u16; MOST];
    let mut costs = [9u32; MOST];
    let mut marks = [9u16; MOST];
    let mut caps = [9u64; MOST];
    let mut proposals = [9i64; MOST];
    let mut floors = [9u64; MOST];
    Some(run_entry(
        writer,
        bytes,
        &mut parents[..lengths[0]],
        &mut costs[..lengths[1]],
        &mut marks[..lengths[2]],
        &mut caps[..lengths[3]],
        &mut proposals[..lengths[4]],
        &mut floors[..lengths[5]],
    ))
}
