// The lines of a report, each written into a lent buffer at a place.
#![tactic(auto)]

mod audit;
mod line;
mod member;

pub use audit::put_audit;
pub use line::{put_level, put_needs, put_refused};
pub use member::put_members;
