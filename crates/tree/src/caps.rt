// The cap sums of all arcs: the members' caps at their arcs, added up from child to parent.
ghost use Rattle.std.specs.Prelude.{◌≡◌, [], length};
ghost use Rattle.basics.specs.Sum.{list};
ghost use Rattle.tree.specs.Passes.{Sound, Listed, Capped, network_at};
ghost use Rattle.answers.specs.Level.{cap_sum};
ghost use Rattle.answers.specs.CapSums.{all_caps};

use crate::placed::write_at_members;
use crate::sums::add_up;

// Writes for each arc what the caps of its users add up to; answers the sum of all caps.
pub fn write_cap_sums(parents: &[u16], vertices: &[u16], caps: &[u64], out: &mut [u64]) -> u64
    requires sound { Sound parents.now }
    requires listed { Listed parents.now vertices.now }
    requires capped { Capped (length vertices.now) caps.now }
    requires out_len { length out.old ≡ length parents.now }
    ensures value { result ≡ all_caps caps.now }
    ensures out_after { out.new
        ≡ list (length parents.now)
        (cap_sum (network_at parents.now [] vertices.now) caps.now) }
{
    write_at_members(parents, vertices, caps, out);
    add_up(parents, out)
}
