// The cases of the split in cost classes: parents, the costs of all classes, marks, the number of classes, and the
// length of the output.
use crate::output::output;
use crate::print;
use crate::read::{Tree, entries};
use std::io::{Result, Write};
use test_lines::list::MOST;
use test_lines::{field, number};

// The most costs, or shares, in a case: more than four classes can have.
const MOST_ENTRIES: usize = 4400;

// Both lists are printed after a refusal too, which leaves the shares as they came and has totals of 0.
fn split<W: Write>(writer: &mut W, tree: &Tree, classes: usize, shares: &mut [u64]) -> Result<()> {
    let s = engine::split_classes(tree.parents, tree.costs, tree.marks, classes, shares);
    let answer = s.answer;
    let totals = s.totals;
    print::member_count(writer, answer)?;
    test_lines::print::list(writer, shares)?;
    test_lines::print::list(writer, &totals)
}

// Field 4 has the number of classes, any number of 64 bits, and field 5 the length.
fn with_classes<W: Write>(writer: &mut W, line: &[u8], tree: &Tree) -> Option<Result<()>> {
    let classes = number::unsigned(field::nth(line, 4))?;
    let mut shares = [9u64; MOST_ENTRIES];
    Some(split(writer, tree, classes, output(line, 5, &mut shares)?))
}

// Field 1 has the parents, field 2 the costs, field 3 the marks.
pub fn run<W: Write>(writer: &mut W, line: &[u8]) -> Option<Result<()>> {
    let mut parents = [0u16; MOST];
    let mut costs = [0u32; MOST_ENTRIES];
    let mut marks = [0u16; MOST];
    let tree = Tree {
        parents: entries(line, 1, number::unsigned, &mut parents)?,
        costs: entries(line, 2, number::unsigned, &mut costs)?,
        marks: entries(line, 3, number::unsigned, &mut marks)?,
    };
    with_classes(writer, line, &tree)
}
