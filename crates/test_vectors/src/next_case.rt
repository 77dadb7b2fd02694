// The cases of the step through all parent lists: the list. It is printed after every answer, and after a refusal too,
// which leaves it as it came.
use crate::print;
use engine::Stepped;
use std::io::{Result, Write};
use test_lines::list::MOST;
use test_lines::{field, list, number};

// More than the lists of any walk.
const MOST_LISTS: u64 = 1000;

pub fn step<W: Write>(writer: &mut W, parents: &mut [u16]) -> Result<()> {
    print::stepped(writer, engine::next_parents(parents))?;
    test_lines::print::list(writer, parents)
}

// Steps up to the list from which none goes on, and counts the lists, the first and the last among them.
fn walked(parents: &mut [u16]) -> u64 {
    for lists in 1..MOST_LISTS {
        if engine::next_parents(parents) != Ok(Stepped::Next) {
            return lists;
        }
    }
    MOST_LISTS
}

// The step from the last list is made once more, and its answer is printed.
pub fn walk<W: Write>(writer: &mut W, parents: &mut [u16]) -> Result<()> {
    let lists = walked(parents);
    write!(writer, "lists {lists}, ")?;
    step(writer, parents)
}

// Field 1 has the list.
pub fn run<F: FnOnce(&mut [u16]) -> Result<()>>(line: &[u8], run: F) -> Option<Result<()>>
    requires { F.IsAlwaysCallable run }
{
    let mut parents = [0u16; MOST];
    let n = list::read(field::nth(line, 1), number::unsigned, &mut parents)?;
    Some(run(&mut parents[..n]))
}
