// The vertices that stay open, and the links that are given up.
ghost use Rattle.std.specs.Prelude.{◌≡◌, ℕ, ◌+◌, ◌≤◌, ◌<◌, length, take};
ghost use Rattle.game.specs.Tree.{of_arc};
ghost use Rattle.limits.specs.Limits.{most_arcs};
ghost use Rattle.limits.specs.Inner.{most_total};
ghost use Rattle.key_passes.specs.Passes.{at, Rising, Outside, linked_sum, Kept};

use crate::VERTICES;
use crate::flags::Flag;

// Answers how many stay open; they are then at the front of `order`.
pub fn keep_open(
    order: &mut [u16],
    bounds: &[u64],
    flags: &[Flag; VERTICES],
    lows: &[u64; VERTICES],
    highs: &[u64; VERTICES],
    links: &mut [u16; VERTICES],
    rests: &mut [u64; VERTICES],
) -> usize
    requires bounds_len_bound { length bounds.now ≤ most_arcs }
    requires rising { Rising (length bounds.now) order.old links.old }
    requires by_index { (i : ℕ) → i < length order.old
        → at rests.old (at order.old i) + linked_sum order.old links.old (of_arc bounds.now) (at order.old i)
        ≤ most_total }
    requires by_index_2 { (i : ℕ) → i < length order.old → Outside order.old (at links.old (at order.old i))
        → at links.old (at order.old i) ≡ 0 }
    ensures upper_bound { result ≤ length order.old }
    ensures kept { Kept order.old links.old bounds.now flags.now
        lows.now highs.now rests.old
        (take result order.new) links.new rests.new }
{
    let mut next = 0;
    for i in 0..order.len() {
        let entry = order[i];
        let v = usize::from(entry);
        let p = usize::from(links[v]);
        if flags[v] != flags[p] {
            // Nothing is added at the source.
            if 0 < p {
                rests[p] += bounds[v - 1];
            }
            links[v] = 0;
        }
        if flags[v] != Flag::Exact && 1 < highs[v].saturating_sub(lows[v]) {
            order[next] = entry;
            next += 1;
        }
    }
    next
}
