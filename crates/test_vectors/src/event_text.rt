// Reading events: a plus and a vertex for arrive, a minus and a vertex for leave, a vertex, "=" and an amount for a new
// cost.
use events::{Change, Event};
use test_lines::{number, scan};

// The change at the vertex that the bytes are.
fn at_vertex(s: &[u8], change: Change) -> Option<Event> {
    let vertex = number::unsigned(s)?;
    Some(Event { vertex, change })
}

fn new_cost(s: &[u8]) -> Option<Event> {
    let end = scan::find(s, b'=')?;
    let amount = number::unsigned(&s[end + 1..])?;
    at_vertex(&s[..end], Change::NewCost(amount))
}

pub fn read(s: &[u8]) -> Option<Event> {
    let (first, rest) = s.split_first()?;
    match *first {
        b'+' => at_vertex(rest, Change::Arrive),
        b'-' => at_vertex(rest, Change::Leave),
        _ => new_cost(s),
    }
}
