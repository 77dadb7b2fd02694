// The counted costs in one pass: an arc that nobody uses costs nothing.
ghost use Rattle.std.specs.Prelude.{◌≡◌, length};
ghost use Rattle.game.specs.Tree.{tree_of, counted_costs};
ghost use Rattle.tree.specs.Passes.{Sound, Costed, Marked};

use limits::MOST_ARCS;

// Writes each arc's cost where it has a user, else 0.
pub fn write_counted(parents: &[u16], costs: &[u32], marks: &[u16], out: &mut [u32])
    requires sound { Sound parents.now }
    requires costed { Costed parents.now costs.now }
    requires marked { Marked parents.now marks.now }
    requires out_len { length out.old ≡ length parents.now }
    ensures { out.new
        ≡ counted_costs (tree_of parents.now costs.now marks.now) }
{
    let mut used = [false; MOST_ARCS + 1];
    for i in (0..parents.len()).rev() {
        let here = marks[i] == 1 || used[i + 1];
        out[i] = if here { costs[i] } else { 0 };
        let p = usize::from(parents[i]);
        used[p] |= here;
    }
}
