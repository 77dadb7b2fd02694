// The margin and the shares that give it: the level rule at the raised needs, with caps that stop nobody.
ghost use Rattle.std.specs.Prelude.{◌≡◌, ◌<◌, length};
ghost use Rattle.basics.specs.Sum.{list};
ghost use Rattle.game.specs.Margin.{raised, widest, shares_at};
ghost use Rattle.game.proofs.Branched.{Branched};
ghost use Rattle.tree.specs.Passes.{Sound, Costed, Listed, network_at};

use crate::search::find_margin;
use limits::{MOST_ARCS, MOST_SHARE};

// Answers the widest margin and writes the raised needs at it. `ones` is room for one entry a member, `needs` and
// `counts` for one an arc.
fn raise_at_widest(
    parents: &[u16],
    costs: &[u32],
    vertices: &[u16],
    arc: usize,
    ones: &mut [u64],
    needs: &mut [u64],
    counts: &mut [u64],
    out: &mut [u64],
) -> u64
    requires sound { Sound parents.now }
    requires costed { Costed parents.now costs.now }
    requires listed { Listed parents.now vertices.now }
    requires branched { Branched (network_at parents.now costs.now vertices.now) arc }
    requires vertices_nonzero { 0 < length vertices.now }
    requires ones_len { length ones.old ≡ length vertices.now }
    requires needs_len { length needs.old ≡ length parents.now }
    requires counts_len { length counts.old ≡ length parents.now }
    requires out_len { length out.old ≡ length parents.now }
    ensures value { result ≡ widest (network_at parents.now costs.now vertices.now) arc }
    ensures out_after { out.new ≡ list (length parents.now)
        (raised (network_at parents.now costs.now vertices.now) result) }
{
    tree::write_needs(parents, costs, needs);
    tree::write_user_counts(parents, vertices, ones, counts);
    find_margin(parents, costs, vertices, needs, counts, arc, out)
}

// `raised` is room for one entry an arc, `caps` for one a member.
fn split_at_widest(
    parents: &[u16],
    costs: &[u32],
    vertices: &[u16],
    arc: usize,
    raised: &mut [u64],
    caps: &mut [u64],
    shares: &mut [u64],
) -> u64
    requires sound { Sound parents.now }
    requires costed { Costed parents.now costs.now }
    requires listed { Listed parents.now vertices.now }
    requires branched { Branched (network_at parents.now costs.now vertices.now) arc }
    requires vertices_nonzero { 0 < length vertices.now }
    requires raised_len { length raised.old ≡ length parents.now }
    requires caps_len { length caps.old ≡ length vertices.now }
    requires shares_len { length shares.old ≡ length vertices.now }
    ensures value { result ≡ widest (network_at parents.now costs.now vertices.now) arc }
    ensures shares_after { shares.new
        ≡ shares_at (network_at parents.now costs.now vertices.now) result }
{
    let m = parents.len();
    let mut needs = [0u64; MOST_ARCS];
    let mut counts = [0u64; MOST_ARCS];
    let margin = raise_at_widest(
        parents,
        costs,
        vertices,
        arc,
        caps,
        &mut needs[0..m],
        &mut counts[0..m],
        raised,
    );
    caps.fill(MOST_SHARE);
    key_search::write_shares(parents, vertices, caps, raised, shares);
    margin
}

// Answers the widest margin and writes one share a member.
pub fn write_margin(
    parents: &[u16],
    costs: &[u32],
    vertices: &[u16],
    arc: usize,
    shares: &mut [u64],
) -> u64
    requires sound { Sound parents.now }
    requires costed { Costed parents.now costs.now }
    requires listed { Listed parents.now vertices.now }
    requires branched { Branched (network_at parents.now costs.now vertices.now) arc }
    requires vertices_nonzero { 0 < length vertices.now }
    requires shares_len { length shares.old ≡ length vertices.now }
    ensures value { result ≡ widest (network_at parents.now costs.now vertices.now) arc }
    ensures shares_after { shares.new
        ≡ shares_at (network_at parents.now costs.now vertices.now) result }
{
    let m = parents.len();
    let users = vertices.len();
    let mut raised = [0u64; MOST_ARCS];
    let mut caps = [0u64; MOST_ARCS];
    split_at_widest(
        parents,
        costs,
        vertices,
        arc,
        &mut raised[0..m],
        &mut caps[0..users],
        shares,
    )
}
