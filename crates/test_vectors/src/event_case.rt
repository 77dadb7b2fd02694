// The cases of steps on a state as handed in: the number of arcs, the four lists, with 0 past those that are shorter,
// the number of events committed, then the steps.
use crate::{step_text, steps};
use events::State;
use limits::MOST_ARCS;
use std::io::{Result, Write};
use test_lines::{field, list, number};

// Field 1 has the number of arcs, fields 2 to 5 the lists, field 6 the number of events committed, field 7 the steps.
pub fn run<W: Write>(writer: &mut W, line: &[u8]) -> Option<Result<()>> {
    let mut parents = [0u16; MOST_ARCS];
    let mut costs = [0u32; MOST_ARCS];
    let mut marks = [0u16; MOST_ARCS];
    let mut shares = [0u64; MOST_ARCS];
    let arcs = number::unsigned(field::nth(line, 1))?;
    list::read(field::nth(line, 2), number::unsigned, &mut parents)?;
    list::read(field::nth(line, 3), number::unsigned, &mut costs)?;
    list::read(field::nth(line, 4), number::unsigned, &mut marks)?;
    list::read(field::nth(line, 5), number::unsigned, &mut shares)?;
    let committed = number::unsigned(field::nth(line, 6))?;
    let steps = step_text::readable(field::nth(line, 7))?;
    let state = State {
        arcs,
        parents,
        costs,
        marks,
        shares,
        committed,
    };
    Some(steps::run(writer, state, steps))
}
