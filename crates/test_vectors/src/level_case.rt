// The cases of the level split: after the tree the caps, the floors and the length of the output.
use crate::output::with_output;
use crate::print;
use crate::read::{Tree, entries};
use std::io::{Result, Write};
use test_lines::list::MOST;
use test_lines::number;

// Field 4 has the caps, field 5 the floors, field 6 the length.
pub fn run<W: Write>(writer: &mut W, line: &[u8], tree: &Tree) -> Option<Result<()>> {
    let mut caps = [0u64; MOST];
    let mut floors = [0u64; MOST];
    let caps = entries(line, 4, number::unsigned, &mut caps)?;
    let floors = entries(line, 5, number::unsigned, &mut floors)?;
    with_output(writer, line, 6, &mut [9u64; MOST], |writer, out| {
        let answer = engine::split_level(tree.parents, tree.costs, tree.marks, caps, floors, out);
        print::level_split(writer, answer)
    })
}
