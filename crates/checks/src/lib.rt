// The checks of lists as they are handed in: a tree with its marks and without, a parent list, caps, floors, a
// proposal, a branch's arc, an output list.
#![tactic(auto)]

mod arc;
mod branch;
mod caps;
mod floors;
mod mark;
mod output;
mod plain;
mod proposal;
mod small;
mod tree;

pub use arc::check_count;
pub use branch::{check_branch_arc, check_branch_users};
pub use caps::check_caps;
pub use floors::check_limits;
pub use output::check_output;
pub use plain::check_plain;
pub use proposal::check_proposal;
pub use small::check_small;
pub use tree::check_tree;
