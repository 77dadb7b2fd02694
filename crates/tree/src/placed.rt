// Numbers of the members, placed at their arcs.
ghost use Rattle.std.specs.Prelude.{◌≡◌, [], length, get_or};
ghost use Rattle.basics.specs.Sum.{pick, list};
ghost use Rattle.game.specs.Network.{number};
ghost use Rattle.tree.specs.Passes.{Sound, Listed, Capped, network_at};

// Writes each member's number at its arc, and 0 at the other arcs. The parents stand for the network.
pub fn write_at_members(parents: &[u16], vertices: &[u16], values: &[u64], out: &mut [u64])
    requires sound { Sound parents.now }
    requires listed { Listed parents.now vertices.now }
    requires capped { Capped (length vertices.now) values.now }
    requires out_len { length out.old ≡ length parents.now }
    ensures { let n = network_at parents.now [] vertices.now in
        out.new ≡ list (length parents.now)
        (λ v. pick (n.member v) (get_or values.now (number n v) 0)) }
{
    out.fill(0);
    for (j, vertex) in vertices.iter().enumerate() {
        let place = usize::from(*vertex) - 1;
        out[place] = values[j];
    }
}
