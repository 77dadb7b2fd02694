// Cost classes: the check of a tree with costs in classes, and each class split by arc by itself.
#![tactic(auto)]

mod check;
mod shares;
mod sums;
mod total;

pub use check::check_classed;
pub use shares::write_classes;
