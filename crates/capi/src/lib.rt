// The public entries for C: each calls one entry and answers a struct of numbers. A refusal of 0 means that there is
// none.
#![tactic(auto)]

mod by_arc_split;
mod cap_sums;
mod check;
mod class_split;
mod group;
mod group_search;
mod job_read;
mod job_write;
mod level_split;
mod margin_split;
mod marks;
mod members;
mod needs;
mod parent_step;
mod quotes;
mod report;
mod states;
mod total;

pub use by_arc_split::zilqodur_split_by_arc;
pub use cap_sums::{ZilqodurCapSums, zilqodur_list_cap_sums};
pub use check::{ZilqodurCheck, zilqodur_check_caps, zilqodur_check_proposal, zilqodur_check_tree};
pub use class_split::{ZilqodurClassSplit, zilqodur_split_classes};
pub use group::{ZilqodurGroup, zilqodur_group_cost};
pub use group_search::{ZilqodurSearch, zilqodur_find_group};
pub use job_read::{ZilqodurJob, zilqodur_read_job, zilqodur_read_job2};
pub use job_write::{
    ZilqodurJobLength, zilqodur_job_length, zilqodur_job_to_1, zilqodur_job_to_2,
    zilqodur_write_job,
};
pub use level_split::{ZilqodurLevel, zilqodur_split_level};
pub use margin_split::{ZilqodurMargin, zilqodur_split_margin};
pub use marks::zilqodur_mark_dead_ends;
pub use members::{ZilqodurMembers, zilqodur_count_members, zilqodur_list_members};
pub use needs::{ZilqodurNeeds, zilqodur_list_needs};
pub use parent_step::{ZilqodurStep, zilqodur_next_parents};
pub use quotes::{ZilqodurQuote, ZilqodurQuoteAnswer, zilqodur_ask, zilqodur_commit};
pub use report::{ZilqodurReport, zilqodur_report};
pub use states::{ZilqodurEvent, ZilqodurStateAnswer, zilqodur_make_state};
pub use total::{ZilqodurTotal, zilqodur_check_total};
