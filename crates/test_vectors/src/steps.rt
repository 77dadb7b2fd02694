// Steps on a state, one after another.
use crate::step_text::Step;
use crate::{print, step_text};
use events::{Event, Quote, State};
use std::io::{Result, Write};
use test_lines::list::Entries;
use test_lines::print::trimmed;

// The shares after an answer, which end what is printed of a step.
fn print_shares<W: Write>(writer: &mut W, shares: &[u64]) -> Result<()> {
    trimmed(writer, shares)?;
    write!(writer, "; ")
}

// The answer is printed, and the shares beside it.
fn ask<W: Write>(writer: &mut W, state: State, event: Event) -> Result<()> {
    let asked = events::ask(state, event);
    let answer = asked.answer;
    let shares = asked.shares;
    print::quote_given(writer, answer)?;
    print_shares(writer, &shares)
}

// The state after a commit; the answer is printed, and the shares after it.
fn commit<W: Write>(writer: &mut W, state: State, quote: Quote) -> Result<State> {
    let done = events::commit(state, quote);
    let answer = done.answer;
    let after = done.state;
    let shares = after.shares;
    print::member_count(writer, answer)?;
    print_shares(writer, &shares)?;
    Ok(after)
}

// The state after a step: asking leaves it as it is.
fn state_after<W: Write>(writer: &mut W, state: State, step: Step) -> Result<State> {
    match step {
        Step::Ask(event) => {
            ask(writer, state, event)?;
            Ok(state)
        }
        Step::Commit(quote) => commit(writer, state, quote),
    }
}

// Every entry of the list is a step. All of the state is printed after the last.
pub fn run<W: Write>(writer: &mut W, start: State, s: &[u8]) -> Result<()> {
    let mut state = start;
    for part in Entries::of(s) {
        if let Some(step) = step_text::read(part) {
            state = state_after(writer, state, step)?;
        }
    }
    print::state(writer, state)
}
