// The number of users of all arcs: the cap sums where every cap is 1.
ghost use Rattle.std.specs.Prelude.{◌≡◌, [], length};
ghost use Rattle.basics.specs.Sum.{list};
ghost use Rattle.game.specs.ByArc.{user_count};
ghost use Rattle.tree.specs.Passes.{Sound, Listed, network_at};

use crate::caps::write_cap_sums;

// Writes for each arc the number of its users. `ones` is room for one entry a member.
pub fn write_user_counts(parents: &[u16], vertices: &[u16], ones: &mut [u64], out: &mut [u64])
    requires sound { Sound parents.now }
    requires listed { Listed parents.now vertices.now }
    requires ones_len { length ones.old ≡ length vertices.now }
    requires out_len { length out.old ≡ length parents.now }
    ensures { out.new
        ≡ list (length parents.now)
        (user_count (network_at parents.now [] vertices.now)) }
{
    ones.fill(1);
    write_cap_sums(parents, vertices, ones, out);
}
