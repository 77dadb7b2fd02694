// The level split: the adjusted needs, what stops the split, and the shares where nothing does.
#![tactic(auto)]

mod adjusted;
mod refusal;
mod shares;
mod stops;

pub use refusal::LevelRefusal;
pub use shares::write_level;
