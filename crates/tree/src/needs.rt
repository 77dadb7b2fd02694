// The needs of all arcs: their costs, added up from below.
ghost use Rattle.std.specs.Prelude.{◌≡◌, [], length};
ghost use Rattle.basics.specs.Sum.{list};
ghost use Rattle.game.specs.Network.{need, whole_cost};
ghost use Rattle.game.specs.Tree.{network_of};
ghost use Rattle.tree.specs.Passes.{Sound, Costed};

use crate::sums::add_up;

// Copies the costs.
fn widen(costs: &[u32], out: &mut [u64])
    requires { length out.old ≡ length costs.now }
    ensures { out.new ≡ costs.now }
{
    for (i, cost) in costs.iter().enumerate() {
        out[i] = u64::from(*cost);
    }
}

// Writes the need of each arc; answers the whole cost.
pub fn write_needs(parents: &[u16], costs: &[u32], out: &mut [u64]) -> u64
    requires sound { Sound parents.now }
    requires costed { Costed parents.now costs.now }
    requires out_len { length out.old ≡ length parents.now }
    ensures value { result ≡ whole_cost (network_of parents.now costs.now []) }
    ensures out_after { out.new
        ≡ list (length parents.now) (need (network_of parents.now costs.now [])) }
{
    widen(costs, out);
    add_up(parents, out)
}
