// Printing the answers of the entries.
use engine::{GroupCost, LevelRefusal, MarginSplit, NeedsFound, Refusal, Searched, Stepped};
use events::{Change, Event, Quote, Quoted, State};
use std::fmt::Display;
use std::io;
use std::io::Write;
use test_lines::print::{list, trimmed};

pub fn refusal<W: Write>(writer: &mut W, refusal: Refusal) -> io::Result<()> {
    write!(writer, "refused {refusal}")
}

pub fn checked<W: Write>(writer: &mut W, found: Result<(), Refusal>) -> io::Result<()> {
    match found {
        Ok(()) => write!(writer, "accepted"),
        Err(r) => refusal(writer, r),
    }
}

// A number has the label before it.
pub fn number<W: Write, N: Display + Drop>(
    writer: &mut W,
    label: &str,
    answer: Result<N, Refusal>,
) -> io::Result<()> {
    match answer {
        Ok(n) => write!(writer, "{label} {n}"),
        Err(r) => refusal(writer, r),
    }
}

pub fn member_count<W: Write>(writer: &mut W, answer: Result<usize, Refusal>) -> io::Result<()> {
    number(writer, "members", answer)
}

pub fn needs_found<W: Write>(
    writer: &mut W,
    answer: Result<NeedsFound, Refusal>,
) -> io::Result<()> {
    match answer {
        Ok(NeedsFound { whole, members }) => write!(writer, "whole {whole} members {members}"),
        Err(r) => refusal(writer, r),
    }
}

pub fn group_cost<W: Write>(writer: &mut W, answer: Result<GroupCost, Refusal>) -> io::Result<()> {
    match answer {
        Ok(GroupCost { size, cost }) => write!(writer, "size {size} cost {cost}"),
        Err(r) => refusal(writer, r),
    }
}

// The words are printed with every answer: they are 0 except where a group is found.
pub fn searched<W: Write>(writer: &mut W, searched: Searched) -> io::Result<()> {
    match searched.answer {
        Ok(Some(found)) => {
            let amount = found.amount;
            let size = found.size;
            write!(writer, "group {amount} of {size}")?;
        }
        Ok(None) => write!(writer, "no group")?,
        Err(r) => refusal(writer, r)?,
    }
    list(writer, &searched.group)
}

pub fn level_split<W: Write>(
    writer: &mut W,
    answer: Result<usize, LevelRefusal>,
) -> io::Result<()> {
    match answer {
        Ok(n) => write!(writer, "split {n}"),
        Err(found) => {
            let shortfall = found.shortfall;
            refusal(writer, found.refusal)?;
            write!(writer, " short {shortfall}")
        }
    }
}

pub fn margin_split<W: Write>(
    writer: &mut W,
    answer: Result<MarginSplit, Refusal>,
) -> io::Result<()> {
    match answer {
        Ok(MarginSplit { margin, users }) => write!(writer, "margin {margin} users {users}"),
        Err(r) => refusal(writer, r),
    }
}

pub fn stepped<W: Write>(writer: &mut W, answer: Result<Stepped, Refusal>) -> io::Result<()> {
    match answer {
        Ok(Stepped::Next) => write!(writer, "next"),
        Ok(Stepped::End) => write!(writer, "end"),
        Err(r) => refusal(writer, r),
    }
}

// An event, as it is read.
fn event<W: Write>(writer: &mut W, e: Event) -> io::Result<()> {
    let Event { vertex, change } = e;
    match change {
        Change::Arrive => write!(writer, "+{vertex}"),
        Change::Leave => write!(writer, "-{vertex}"),
        Change::NewCost(amount) => write!(writer, "{vertex}={amount}"),
    }
}

fn quoted<W: Write>(writer: &mut W, q: Quote) -> io::Result<()> {
    event(writer, q.event)?;
    let committed = q.committed;
    write!(writer, "@{committed}")
}

pub fn quote_given<W: Write>(writer: &mut W, answer: Result<Quoted, Refusal>) -> io::Result<()> {
    match answer {
        Ok(Quoted { members, quote }) => {
            write!(writer, "members {members} quote ")?;
            quoted(writer, quote)
        }
        Err(r) => refusal(writer, r),
    }
}

// All of a state: the zeros at the end of a list are left out, so that every other entry is printed.
pub fn state<W: Write>(writer: &mut W, s: State) -> io::Result<()> {
    let parents = s.parents;
    let costs = s.costs;
    let marks = s.marks;
    let shares = s.shares;
    let arcs = s.arcs;
    let committed = s.committed;
    write!(writer, "arcs {arcs}")?;
    trimmed(writer, &parents)?;
    trimmed(writer, &costs)?;
    trimmed(writer, &marks)?;
    trimmed(writer, &shares)?;
    write!(writer, ": {committed}")
}

// What is printed of the entries past the front: whether they are as before the call.
pub fn others<W: Write>(writer: &mut W, kept: bool) -> io::Result<()> {
    if kept {
        write!(writer, "; others kept")
    } else {
        write!(writer, "; others changed")
    }
}
