// The passes of a round over the open vertices: what the users of each arc have at its pivot, what follows for the keys,
// and which vertices stay open. A key stands for a level and a limit on member numbers, level * 1024 + limit: at it a
// member has the level, one more where its number is below the limit, and at most its cap.
//
// The lists by vertex are no one list of structs: each pass lends mutably only the lists that it writes, and a
// contract over structs would have to say that the other fields stay.
#![tactic(auto)]

mod flags;
mod forest;
mod keep;
mod members;
mod share;
mod values;

pub use flags::Flag;
pub use forest::Forest;
pub use keep::keep_open;
use limits::MOST_ARCS;
pub use members::Members;
pub use share::share_at;

// Room for one entry a vertex, place 0 for the source.
pub const VERTICES: usize = MOST_ARCS + 1;

pub const KEYS_PER_LEVEL: u64 = 1024;
