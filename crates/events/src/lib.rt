// States of a network, and the events that change them. A state holds a tree and its by-arc shares by value. An event
// is asked for first, and the quote that this gives is committed.
#![tactic(auto)]

mod apply;
mod asking;
mod changes;
mod committing;
mod make;
mod quotes;

pub use asking::{Asked, Quoted, ask};
pub use changes::{Change, Event};
pub use committing::commit;
pub use make::{State, StateAnswer, make_state};
pub use quotes::Quote;
