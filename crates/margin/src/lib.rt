// The widest margin in a branch: the branch's marks, the raised needs in one pass, the greatest margin by bisection,
// and the level rule at the raised needs.
#![tactic(auto)]

mod branch;
mod raise;
mod search;
mod shares;

pub use branch::write_branch_marks;
pub use shares::write_margin;
