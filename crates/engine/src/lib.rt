// The public entries over lists as they are handed in. Each answers its value or a refusal by number and place.
#![tactic(auto)]

mod by_arc_split;
mod cap_sums;
mod class_split;
mod group;
mod group_search;
mod level_split;
mod margin_split;
mod marks;
mod members;
mod needs;
mod parent_step;
mod proposed;
mod total;

pub use answer_forms::{Reason, Refusal};
pub use by_arc_split::split_by_arc;
pub use cap_sums::list_cap_sums;
pub use checks::{check_caps, check_limits, check_proposal, check_tree};
pub use class_split::{ClassSplit, split_classes};
pub use group::{GroupCost, group_cost};
pub use group_search::{GroupFound, Searched, find_group};
pub use level::LevelRefusal;
pub use level_split::split_level;
pub use margin_split::{MarginSplit, split_margin};
pub use marks::mark_dead_ends;
pub use members::{count_members, list_members};
pub use needs::{NeedsFound, list_needs};
pub use parent_step::{Stepped, next_parents};
pub use total::check_total;
