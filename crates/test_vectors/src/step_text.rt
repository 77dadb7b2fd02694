// Reading steps: "?" and an event for asking; an event, "@" and a number for the commit of a quote. A list of them has
// a comma between two, and "-" for no steps.
use crate::event_text;
use events::{Event, Quote};
use test_lines::list::Entries;
use test_lines::{number, scan};

#[derive(Clone, Copy, Debug, PartialEq, Eq)]
pub enum Step {
    Ask(Event),
    Commit(Quote),
}

fn committing(s: &[u8]) -> Option<Step> {
    let end = scan::find(s, b'@')?;
    let committed = number::unsigned(&s[end + 1..])?;
    let event = event_text::read(&s[..end])?;
    Some(Step::Commit(Quote { event, committed }))
}

pub fn read(s: &[u8]) -> Option<Step> {
    match s.strip_prefix(b"?") {
        Some(event) => Some(Step::Ask(event_text::read(event)?)),
        None => committing(s),
    }
}

// The text of a list where every entry of it is a step.
pub fn readable(s: &[u8]) -> Option<&[u8]> {
    Entries::of(s).all(|part| read(part).is_some()).then_some(s)
}
