// Passes over a tree. Those that gather at the parents go from arc m down to arc 1, so that an arc is met
// after all arcs below it. Arrays are indexed by vertex, place 0 for the source.
#![tactic(auto)]

mod caps;
mod counted;
mod counts;
mod group;
mod members;
mod needs;
mod placed;
mod sums;
mod whole;

pub use caps::write_cap_sums;
pub use counted::write_counted;
pub use counts::write_user_counts;
pub use group::cost_of;
pub use members::{count_members, write_members};
pub use needs::write_needs;
pub use placed::write_at_members;
pub use whole::whole_cost;
