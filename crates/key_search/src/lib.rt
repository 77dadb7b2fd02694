// The level split of all arcs together. A key stands for a level and a limit on member numbers, level * 1024 + limit: at
// it a member has the level, one more where its number is below the limit, and at most its cap. A member's share is the
// one at the greatest key on its path. The search finds these keys for all vertices together, in rounds: each tries a
// key for every open vertex, by one pass over them from the last to the first and some from the first to the last.
#![tactic(auto)]

mod choose;
mod members;
mod search;
mod start;

ghost use Rattle.std.specs.Prelude.{◌≡◌, length};
ghost use Rattle.tree.specs.Passes.{Sound, Listed, Capped};
ghost use Rattle.key_search.specs.Shares.{Bounds, level_at};

use key_passes::{KEYS_PER_LEVEL, Members, VERTICES};
use limits::{MOST_ARCS, MOST_SHARE};
use members::{place_members, read_off};
use search::search;

// The greatest level is the greatest cap.
const LAST_KEY: u64 = MOST_SHARE * KEYS_PER_LEVEL;

// Writes one share a member: the level split where the users of each arc have the arc's bound together when it has
// given out.
pub fn write_shares(
    parents: &[u16],
    vertices: &[u16],
    caps: &[u64],
    bounds: &[u64],
    shares: &mut [u64],
)
    requires sound { Sound parents.now }
    requires listed { Listed parents.now vertices.now }
    requires capped { Capped (length vertices.now) caps.now }
    requires bounds { Bounds parents.now vertices.now caps.now bounds.now }
    requires shares_len { length shares.old ≡ length vertices.now }
    ensures { shares.new
        ≡ level_at parents.now vertices.now caps.now bounds.now }
{
    let mut members = Members {
        caps: [0u64; VERTICES],
        numbers: [0u16; VERTICES],
    };
    let mut order = [0u16; MOST_ARCS];
    let mut keys = [0u64; VERTICES];
    place_members(vertices, caps, &mut members);
    search(
        parents,
        vertices,
        caps,
        bounds,
        &members,
        &mut order[..parents.len()],
        &mut keys,
    );
    read_off(vertices, caps, &keys, shares);
}
