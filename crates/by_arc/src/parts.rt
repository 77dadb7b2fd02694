// The equal parts on the way to each vertex, in one pass from the source outward.
ghost use Rattle.std.specs.Prelude.{◌≡◌, ◌/◌, ◌≤◌, [], length};
ghost use Rattle.basics.specs.Sum.{list as list_of};
ghost use Rattle.game.specs.Tree.{network_of, of_arc};
ghost use Rattle.tree.specs.Passes.{Sound, Costed};
ghost use Rattle.users.specs.Layout.{Counts};
ghost use Rattle.by_arc.specs.Shares.{sum_above};

use crate::divide::part_of;

// The entry of the arc that ends at a vertex; 0 for the source.
pub fn at_vertex(list: &[u64], vertex: usize) -> u64
    requires { vertex ≤ length list.now }
    ensures { result ≡ of_arc list.now vertex }
{
    if vertex == 0 { 0 } else { list[vertex - 1] }
}

// `parts` holds first the number of users of each arc.
pub fn write_parts(parents: &[u16], costs: &[u32], parts: &mut [u64])
    requires sound { Sound parents.now }
    requires costed { Costed parents.now costs.now }
    requires counts { Counts (length parents.now) parts.old }
    ensures { parts.new ≡ list_of (length parents.now)
        (sum_above (network_of parents.now [] [])
        (λ k. of_arc costs.now k / of_arc parts.old k)) }
{
    for i in 0..parents.len() {
        let above = at_vertex(parts, usize::from(parents[i]));
        let part = part_of(costs[i], parts[i] as u32);
        parts[i] = above + u64::from(part);
    }
}
