// Sums of what stands below, in one pass: an arc's sum is carried to its parent.
ghost use Rattle.std.specs.Prelude.{◌≡◌, ◌≤◌, [], length};
ghost use Rattle.basics.specs.Sum.{sum, list};
ghost use Rattle.game.specs.Network.{sum_below};
ghost use Rattle.game.specs.Tree.{network_of, of_arc};
ghost use Rattle.tree.specs.Passes.{Sound};

use limits::MOST_ARCS;

// Adds to each arc's entry those of all arcs below it; answers the sum of all entries, which is asked to be
// below 2^63.
pub fn add_up(parents: &[u16], out: &mut [u64]) -> u64
    requires sound { Sound parents.now }
    requires out_len { length out.old ≡ length parents.now }
    requires out_bound { sum (length out.old) (of_arc out.old) ≤ 9223372036854775807 }
    ensures value { result ≡ sum (length out.old) (of_arc out.old) }
    ensures out_after { out.new ≡ list (length parents.now)
        (sum_below (network_of parents.now [] []) (of_arc out.old)) }
{
    let mut below = [0u64; MOST_ARCS + 1];
    for i in (0..parents.len()).rev() {
        let total = below[i + 1] + out[i];
        out[i] = total;
        let p = usize::from(parents[i]);
        below[p] += total;
    }
    below[0]
}
