// The pivots of a round. Any key between the low and the high one will do; of the guess it is proved that it is safe
// and nothing else.
//
// Vertices that are linked have one pivot: they are a part, and its first vertex, whose link is 0, is its root. The guess
// is the key at which the users of the root's arc would have its bound if no other arc of the part had one: it divides
// what they lack or have too much at the last pivot's level among those below their caps. Where less is lacking than
// there are such users, the lowest numbers get one more, and the guess has their limit.
ghost use Rattle.std.specs.Prelude.{ℕ, ◌+◌, ◌<◌, length};
ghost use Rattle.key_passes.specs.Passes.{at, Chosen};

use key_passes::{Forest, KEYS_PER_LEVEL, Members, VERTICES};
use limits::MOST_SHARE;

// Every so many rounds the middle is tried.
pub const TURNS: u32 = 8;

// The place of a vertex in the lists. The order has no number that is too great, so nothing is cut off.
fn place_of(vertex: u16) -> usize
    ensures { result < 1024 }
{
    usize::from(vertex) % VERTICES
}

// An arc's bound; 0 for a number that is no arc's.
fn bound_of(bounds: &[u64], arc: usize) -> u64 {
    if 0 < arc && arc <= bounds.len() {
        bounds[arc - 1]
    } else {
        0
    }
}

// At the level of the last pivot: what each part's users have with what its unlinked child arcs add, and how many of
// them are below their caps. Both stand at the root, and `roots` has it for every vertex.
fn gauge(
    forest: &Forest,
    members: &Members,
    rests: &[u64; VERTICES],
    pivots: &[u64; VERTICES],
    roots: &mut [u16; VERTICES],
    plains: &mut [u64; VERTICES],
    counts: &mut [u16; VERTICES],
) {
    for &entry in forest.order {
        let v = place_of(entry);
        if forest.links[v] == 0 {
            roots[v] = entry;
            plains[v] = 0;
            counts[v] = 0;
        } else {
            roots[v] = roots[place_of(forest.links[v])];
        }
        let r = place_of(roots[v]);
        let level = pivots[v] / KEYS_PER_LEVEL;
        plains[r] = plains[r]
            .wrapping_add(rests[v])
            .wrapping_add(members.caps[v].min(level));
        counts[r] = counts[r].wrapping_add(u16::from(level < members.caps[v]));
    }
}

// The first key of a level, at most the last key.
fn key_of(level: u64) -> u64 {
    level.min(MOST_SHARE) * KEYS_PER_LEVEL
}

// The level moved by an equal part of what is lacking, or too much.
fn moved(level: u64, plain: u64, count: u64, bound: u64) -> u64
    requires { 0 < count }
{
    if bound < plain {
        let down = (plain - bound).div_ceil(count);
        return key_of(level.saturating_sub(down));
    }
    let up = (bound - plain) / count;
    key_of(level.saturating_add(up))
}

// How many users are to have one more; 0 where the level moves.
fn want_of(plain: u64, count: u16, bound: u64) -> u16 {
    match bound.checked_sub(plain) {
        Some(more) if more < u64::from(count) => more as u16,
        _ => 0,
    }
}

// Puts each root's guess in place of its last pivot, and the number of users who are to have one more in place of the
// count.
fn guess_roots(
    forest: &Forest,
    lows: &[u64; VERTICES],
    highs: &[u64; VERTICES],
    plains: &[u64; VERTICES],
    turn: u32,
    counts: &mut [u16; VERTICES],
    pivots: &mut [u64; VERTICES],
) {
    for &entry in forest.order {
        let v = place_of(entry);
        if forest.links[v] == 0 {
            let bound = bound_of(forest.bounds, v);
            let plain = plains[v];
            let count = counts[v];
            pivots[v] = if turn % TURNS == 0 || count == 0 {
                lows[v] / 2 + highs[v] / 2
            } else {
                moved(pivots[v] / KEYS_PER_LEVEL, plain, u64::from(count), bound)
            };
            counts[v] = want_of(plain, count, bound);
        }
    }
}

// Members stand in the order by their numbers. Those below their caps are counted off, and the limit is put behind the
// last one's number.
fn count_off(
    order: &[u16],
    members: &Members,
    roots: &[u16; VERTICES],
    counts: &mut [u16; VERTICES],
    pivots: &mut [u64; VERTICES],
) {
    for &entry in order {
        let v = place_of(entry);
        let r = place_of(roots[v]);
        if 0 < counts[r] && pivots[r] / KEYS_PER_LEVEL < members.caps[v] {
            counts[r] -= 1;
            if counts[r] == 0 {
                pivots[r] = pivots[r].wrapping_add(u64::from(members.numbers[v]) + 1);
            }
        }
    }
}

// From the first vertex to the last, each after the one that it is linked to.
fn spread(
    forest: &Forest,
    lows: &[u64; VERTICES],
    highs: &[u64; VERTICES],
    pivots: &mut [u64; VERTICES],
)
    requires { (i : ℕ) → i < length forest.now.order.now
        → at lows.now (at forest.now.order.now i) + 1 < at highs.now (at forest.now.order.now i) }
    ensures { Chosen forest.now.order.now forest.now.links.now lows.now highs.now
        pivots.new }
{
    for &entry in forest.order {
        let v = usize::from(entry);
        let p = usize::from(forest.links[v]);
        pivots[v] = if p == 0 {
            pivots[v].clamp(lows[v] + 1, highs[v] - 1)
        } else {
            pivots[p]
        };
    }
}

// The three lists before the pivots are room.
pub fn choose(
    forest: &Forest,
    members: &Members,
    rests: &[u64; VERTICES],
    lows: &[u64; VERTICES],
    highs: &[u64; VERTICES],
    turn: u32,
    roots: &mut [u16; VERTICES],
    plains: &mut [u64; VERTICES],
    counts: &mut [u16; VERTICES],
    pivots: &mut [u64; VERTICES],
)
    requires { (i : ℕ) → i < length forest.now.order.now
        → at lows.now (at forest.now.order.now i) + 1 < at highs.now (at forest.now.order.now i) }
    ensures { Chosen forest.now.order.now forest.now.links.now lows.now highs.now
        pivots.new }
{
    gauge(forest, members, rests, pivots, roots, plains, counts);
    guess_roots(forest, lows, highs, plains, turn, counts, pivots);
    count_off(forest.order, members, roots, counts, pivots);
    spread(forest, lows, highs, pivots);
}
