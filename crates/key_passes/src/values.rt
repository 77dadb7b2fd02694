// What the users of each open arc have together at its pivot.
ghost use Rattle.std.specs.Prelude.{◌≡◌, ℕ, ◌<◌, ◌≤◌, length};
ghost use Rattle.limits.specs.Limits.{most_arcs};
ghost use Rattle.key_passes.specs.Passes.{at, Rising, Outside, Addable, Evaluated, own_at};

use crate::VERTICES;
use crate::forest::Forest;
use crate::members::Members;
use crate::share::share_at;

impl<'a> Forest<'a> {
    // From the last vertex to the first, each adding to the sum at its link, an open vertex or 0. `sums` is 0 at every
    // open vertex, before and after.
    pub fn evaluate(
        &self,
        members: &Members,
        rests: &[u64; VERTICES],
        pivots: &[u64; VERTICES],
        sums: &mut [u64; VERTICES],
        held: &mut [u64; VERTICES],
    )
        requires addable { Addable self.now.order.now self.now.links.now self.now.bounds.now
            (own_at members.now.caps members.now.numbers rests.now pivots.now) }
        requires by_index { (i : ℕ) → i < length self.now.order.now
            → Outside self.now.order.now (at self.now.links.now (at self.now.order.now i))
            → at self.now.links.now (at self.now.order.now i) ≡ 0 }
        requires by_index_2 { (i : ℕ) → i < length self.now.order.now → at sums.old (at self.now.order.now i) ≡ 0 }
        requires sums_value { at sums.old 0 ≡ 0 }
        ensures evaluated { Evaluated self.now.order.now self.now.links.now self.now.bounds.now
            (own_at members.now.caps members.now.numbers rests.now pivots.now)
            held.new }
        ensures by_index_3 { (i : ℕ) → i < length self.now.order.now
            → at sums.new (at self.now.order.now i) ≡ 0 }
        ensures sums_after { at sums.new 0 ≡ 0 }
    {
        for i in (0..self.order.len()).rev() {
            let v = usize::from(self.order[i]);
            let share = share_at(members.caps[v], u64::from(members.numbers[v]), pivots[v]);
            let total = sums[v] + rests[v] + share;
            sums[v] = 0;
            held[v] = total;
            sums[usize::from(self.links[v])] += self.bounds[v - 1].max(total);
        }
        sums[0] = 0;
    }
}
