// The cases of a state made of a tree, with steps on it.
use crate::read::Tree;
use crate::{print, step_text, steps};
use std::io::{Result, Write};
use test_lines::field;

fn on_state<W: Write>(writer: &mut W, tree: &Tree, s: &[u8]) -> Result<()> {
    let made = events::make_state(tree.parents, tree.costs, tree.marks);
    let answer = made.answer;
    let state = made.state;
    print::member_count(writer, answer)?;
    write!(writer, "; ")?;
    steps::run(writer, state, s)
}

// Field 4 has the steps.
pub fn run<W: Write>(writer: &mut W, line: &[u8], tree: &Tree) -> Option<Result<()>> {
    let s = step_text::readable(field::nth(line, 4))?;
    Some(on_state(writer, tree, s))
}
