// The lists that a job reader fills: their fronts printed, and whether the entries past these are 9, as before it.
use std::fmt::Display;
use std::io::{Result, Write};
use test_lines::print::list;
use test_lines::rest;

// The most bytes of a job or an output in a case: more than a job may have.
pub const MOST_BYTES: usize = 33500;

// What a reader answers.
pub fn counts<W: Write>(writer: &mut W, arcs: usize, members: usize, note: usize) -> Result<()> {
    write!(writer, "read {arcs} {members} {note}")
}

// The first n entries, or all where there are fewer.
pub fn front<W: Write, T: Display>(writer: &mut W, n: usize, entries: &[T]) -> Result<()> {
    let k = n.min(entries.len());
    list(writer, &entries[..k])
}

// The fronts of the lists with an entry an arc that both versions have.
pub fn arc_fronts<W: Write>(
    writer: &mut W,
    n: usize,
    parents: &[u16],
    costs: &[u32],
) -> Result<()> {
    front(writer, n, parents)?;
    front(writer, n, costs)
}

// As arc_fronts, with an entry a member.
pub fn member_fronts<W: Write>(
    writer: &mut W,
    n: usize,
    caps: &[u64],
    proposals: &[i64],
) -> Result<()> {
    front(writer, n, caps)?;
    front(writer, n, proposals)
}

pub fn arcs_kept(n: usize, parents: &[u16], costs: &[u32]) -> bool {
    rest::is(parents, n, 9) && rest::is(costs, n, 9)
}

pub fn members_kept(n: usize, caps: &[u64], proposals: &[i64]) -> bool {
    rest::is(caps, n, 9) && rest::is(proposals, n, 9)
}
