// The adjusted needs, in one pass from the last arc down: an arc's adjusted need is carried to its parent.
ghost use Rattle.std.specs.Prelude.{◌≡◌, length};
ghost use Rattle.basics.specs.Sum.{list};
ghost use Rattle.game.specs.Network.{need};
ghost use Rattle.game.specs.Floors.{adjusted};
ghost use Rattle.tree.specs.Passes.{Sound, Costed, Listed, Capped, network_at};

use limits::MOST_ARCS;

// Writes the adjusted need of each arc. Costs stand for the network; the pass reads the needs. A member's floor is
// first at its arc, which has no child arcs.
pub fn write_adjusted(
    parents: &[u16],
    costs: &[u32],
    vertices: &[u16],
    floors: &[u64],
    needs: &[u64],
    out: &mut [u64],
)
    requires sound { Sound parents.now }
    requires costed { Costed parents.now costs.now }
    requires listed { Listed parents.now vertices.now }
    requires capped { Capped (length vertices.now) floors.now }
    requires needs_value { needs.now
        ≡ list (length parents.now) (need (network_at parents.now costs.now vertices.now)) }
    requires out_len { length out.old ≡ length parents.now }
    ensures { out.new ≡ list (length parents.now)
        (adjusted (network_at parents.now costs.now vertices.now)
        floors.now) }
{
    tree::write_at_members(parents, vertices, floors, out);
    let mut below = [0u64; MOST_ARCS + 1];
    for i in (0..parents.len()).rev() {
        let own = needs[i].max(out[i]);
        let adjusted = own.max(below[i + 1]);
        out[i] = adjusted;
        below[usize::from(parents[i])] += adjusted;
    }
}
