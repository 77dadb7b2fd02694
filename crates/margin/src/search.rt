// The widest margin by bisection: a margin is possible where the raised need of the branch's arc is its need.
ghost use Rattle.std.specs.Prelude.{◌≡◌, cond, ◌<◌, length, leb};
ghost use Rattle.basics.specs.Sum.{list};
ghost use Rattle.basics.proofs.Sums.{In};
ghost use Rattle.game.specs.ByArc.{user_count};
ghost use Rattle.game.specs.Margin.{raised, widest};
ghost use Rattle.tree.specs.Passes.{Sound, Costed, Listed, network_at};
ghost use Rattle.margin.specs.Passes.{Measured};

use crate::raise::write_raised;

// Answers the widest margin and writes the raised needs at it. Between two margins of which the lower is possible and
// the upper is not, the one in the middle is tried.
pub fn find_margin(
    parents: &[u16],
    costs: &[u32],
    vertices: &[u16],
    needs: &[u64],
    counts: &[u64],
    arc: usize,
    out: &mut [u64],
) -> u64
    requires sound { Sound parents.now }
    requires costed { Costed parents.now costs.now }
    requires listed { Listed parents.now vertices.now }
    requires measured { Measured parents.now costs.now vertices.now needs.now counts.now }
    requires fact { In (length parents.now) arc }
    requires arc_nonzero { 0 < user_count (network_at parents.now costs.now vertices.now) arc }
    requires out_len { length out.old ≡ length parents.now }
    ensures value { result ≡ widest (network_at parents.now costs.now vertices.now) arc }
    ensures out_after { out.new ≡ list (length parents.now)
        (raised (network_at parents.now costs.now vertices.now) result) }
{
    let need = needs[arc - 1];
    let mut low = 0;
    let mut high = need + 1;
    while low + 1 < high {
        let middle = low + (high - low) / 2;
        write_raised(parents, costs, vertices, needs, counts, middle, out);
        if out[arc - 1] <= need {
            low = middle;
        } else {
            high = middle;
        }
    }
    write_raised(parents, costs, vertices, needs, counts, low, out);
    low
}
