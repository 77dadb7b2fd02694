// Whether the greatest key on each open vertex's path is its pivot or above, and its low or high key moved to the pivot.
ghost use Rattle.std.specs.Prelude.{◌≡◌, ◌≤◌, length};
ghost use Rattle.limits.specs.Limits.{most_arcs};
ghost use Rattle.key_passes.specs.Passes.{Rising, flag_of, Settled};

use crate::VERTICES;
use crate::forest::Forest;

// Where the greatest key on a vertex's path lies.
#[derive(Clone, Copy, Debug, PartialEq, Eq)]
pub enum Flag {
    // Below the pivot.
    Below,
    // At the pivot or above.
    Reached,
    // At the pivot or above, where the shares are those at the pivot.
    Exact,
}

fn flag_of(held: u64, bound: u64, flag: Flag) -> Flag
    ensures { result ≡ flag_of held bound flag }
{
    if bound < held || flag == Flag::Reached {
        return flag;
    }
    if held < bound {
        return Flag::Reached;
    }
    Flag::Exact
}

impl<'a> Forest<'a> {
    // From the first vertex to the last, each after the one that it is linked to.
    pub fn settle(
        &self,
        pivots: &[u64; VERTICES],
        held: &[u64; VERTICES],
        flags: &mut [Flag; VERTICES],
        lows: &mut [u64; VERTICES],
        highs: &mut [u64; VERTICES],
    )
        ensures { Settled self.now.order.now self.now.links.now self.now.bounds.now pivots.now
            held.now flags.old lows.old highs.old
            flags.new lows.new highs.new }
    {
        for &entry in self.order {
            let v = usize::from(entry);
            let flag = flag_of(
                held[v],
                self.bounds[v - 1],
                flags[usize::from(self.links[v])],
            );
            flags[v] = flag;
            match flag {
                Flag::Below => highs[v] = pivots[v],
                Flag::Reached | Flag::Exact => lows[v] = pivots[v],
            }
        }
    }
}
