// The by-arc split of a tree.
ghost use Rattle.std.specs.Prelude.{◌≡◌, length};
ghost use Rattle.game.specs.ByArc.{by_arc};
ghost use Rattle.tree.specs.Passes.{Sound, Costed, Listed, network_at};

use crate::parts::write_parts;
use crate::shares::write_shares;
use crate::tallies::write_tallies;
use limits::MOST_ARCS;

// The three lists before the shares are room for the arcs' numbers of users and then their parts, for where the users
// begin, and for the members' keys; the shares serve first as room for the counts.
fn split_in(
    parents: &[u16],
    costs: &[u32],
    vertices: &[u16],
    parts: &mut [u64],
    starts: &mut [u64],
    keys: &mut [u32],
    shares: &mut [u64],
)
    requires sound { Sound parents.now }
    requires costed { Costed parents.now costs.now }
    requires listed { Listed parents.now vertices.now }
    requires parts_len { length parts.old ≡ length parents.now }
    requires starts_len { length starts.old ≡ length parents.now }
    requires keys_len { length keys.old ≡ length vertices.now }
    requires shares_len { length shares.old ≡ length vertices.now }
    ensures { shares.new ≡ by_arc (network_at
        parents.now costs.now vertices.now) }
{
    tree::write_user_counts(parents, vertices, shares, parts);
    write_tallies(parents, costs, vertices, parts, starts, keys);
    write_parts(parents, costs, parts);
    write_shares(vertices, starts, keys, parts, shares);
}

pub fn write_by_arc(parents: &[u16], costs: &[u32], vertices: &[u16], shares: &mut [u64])
    requires sound { Sound parents.now }
    requires costed { Costed parents.now costs.now }
    requires listed { Listed parents.now vertices.now }
    requires shares_len { length shares.old ≡ length vertices.now }
    ensures { shares.new ≡ by_arc (network_at
        parents.now costs.now vertices.now) }
{
    let m = parents.len();
    let n = vertices.len();
    let mut parts = [0u64; MOST_ARCS];
    let mut starts = [0u64; MOST_ARCS];
    let mut keys = [0u32; MOST_ARCS];
    split_in(
        parents,
        costs,
        vertices,
        &mut parts[0..m],
        &mut starts[0..m],
        &mut keys[0..n],
        shares,
    );
}
