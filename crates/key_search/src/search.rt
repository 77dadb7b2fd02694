// The rounds of the search.
ghost use Rattle.std.specs.Prelude.{◌≡◌, ℕ, length};
ghost use Rattle.tree.specs.Passes.{Sound, Listed, Capped};
ghost use Rattle.key_passes.specs.Passes.{at, AtVertices};
ghost use Rattle.key_search.specs.Shares.{Bounds, Found};

use crate::LAST_KEY;
use crate::choose::{TURNS, choose};
use crate::start::open_all;
use key_passes::{Flag, Forest, Members, VERTICES, keep_open};

// Writes a key for each vertex, where all were 0. `order` is room for one entry an arc; `vertices` and `caps` are there
// for the contract, which says by them what the keys are.
pub fn search(
    parents: &[u16],
    vertices: &[u16],
    caps: &[u64],
    bounds: &[u64],
    members: &Members,
    order: &mut [u16],
    lows: &mut [u64; VERTICES],
)
    requires sound { Sound parents.now }
    requires listed { Listed parents.now vertices.now }
    requires capped { Capped (length vertices.now) caps.now }
    requires bounds { Bounds parents.now vertices.now caps.now bounds.now }
    requires at_vertices { AtVertices vertices.now caps.now members.now.caps members.now.numbers }
    requires order_len { length order.old ≡ length parents.now }
    requires by_index { (v : ℕ) → at lows.old v ≡ 0 }
    ensures { Found parents.now vertices.now caps.now bounds.now
        lows.new }
{
    let mut links = [0u16; VERTICES];
    open_all(parents, order, &mut links);
    let mut highs = [LAST_KEY + 1; VERTICES];
    let mut rests = [0u64; VERTICES];
    let mut pivots = [0u64; VERTICES];
    let mut sums = [0u64; VERTICES];
    let mut held = [0u64; VERTICES];
    let mut flags = [Flag::Below; VERTICES];
    let mut roots = [0u16; VERTICES];
    let mut counts = [0u16; VERTICES];
    let mut turn: u32 = 1;
    let mut count = order.len();
    while 0 < count {
        let forest = Forest {
            order: &order[..count],
            links: &links,
            bounds,
        };
        choose(
            &forest,
            members,
            &rests,
            lows,
            &highs,
            turn,
            &mut roots,
            &mut held,
            &mut counts,
            &mut pivots,
        );
        forest.evaluate(members, &rests, &pivots, &mut sums, &mut held);
        forest.settle(&pivots, &held, &mut flags, lows, &mut highs);
        count = keep_open(
            &mut order[..count],
            bounds,
            &flags,
            lows,
            &highs,
            &mut links,
            &mut rests,
        );
        turn = turn % TURNS + 1;
    }
}
