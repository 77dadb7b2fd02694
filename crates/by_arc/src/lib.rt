// The by-arc split: each arc's cost is divided among its users, the units left over going to them in turn. A member's
// share is the equal parts of the arcs on its way to the source and its tally after all arcs.
#![tactic(auto)]

mod arcs;
mod divide;
mod parts;
mod shares;
mod tallies;

pub use arcs::write_by_arc;
