// The shares, where nothing stops the split: the level rule at the adjusted needs.
ghost use Rattle.std.specs.Prelude.{◌≡◌, length};
ghost use Rattle.game.specs.Network.{member_count};
ghost use Rattle.tree.specs.Passes.{Sound, Costed, Listed, Capped, network_at};
ghost use Rattle.answers.specs.Level.{split_from, list_after, level_shares};
ghost use Rattle.level.specs.Refusals.{answer_of};

use crate::refusal::LevelRefusal;
use crate::stops::find_stop;
use limits::MOST_ARCS;

// `adjusted` is room for one entry an arc.
fn write_at(
    parents: &[u16],
    costs: &[u32],
    vertices: &[u16],
    caps: &[u64],
    floors: &[u64],
    adjusted: &mut [u64],
    shares: &mut [u64],
) -> Result<(), LevelRefusal>
    requires sound { Sound parents.now }
    requires costed { Costed parents.now costs.now }
    requires listed { Listed parents.now vertices.now }
    requires capped { Capped (length vertices.now) caps.now }
    requires capped_2 { Capped (length vertices.now) floors.now }
    requires adjusted_len { length adjusted.old ≡ length parents.now }
    requires shares_len { length shares.old ≡ length vertices.now }
    ensures result_value { let n = network_at parents.now costs.now vertices.now in
        answer_of (member_count n) result
        ≡ split_from n caps.now floors.now (length parents.now) }
    ensures shares_after { let n = network_at parents.now costs.now vertices.now in
        shares.new ≡ list_after (answer_of (member_count n) result) shares.old
        (level_shares n caps.now floors.now) }
{
    find_stop(parents, costs, vertices, caps, floors, adjusted)?;
    key_search::write_shares(parents, vertices, caps, adjusted, shares);
    Ok(())
}

// Writes one share a member where nothing stops the split; answers what does.
pub fn write_level(
    parents: &[u16],
    costs: &[u32],
    vertices: &[u16],
    caps: &[u64],
    floors: &[u64],
    shares: &mut [u64],
) -> Result<(), LevelRefusal>
    requires sound { Sound parents.now }
    requires costed { Costed parents.now costs.now }
    requires listed { Listed parents.now vertices.now }
    requires capped { Capped (length vertices.now) caps.now }
    requires capped_2 { Capped (length vertices.now) floors.now }
    requires shares_len { length shares.old ≡ length vertices.now }
    ensures result_value { let n = network_at parents.now costs.now vertices.now in
        answer_of (member_count n) result
        ≡ split_from n caps.now floors.now (length parents.now) }
    ensures shares_after { let n = network_at parents.now costs.now vertices.now in
        shares.new ≡ list_after (answer_of (member_count n) result) shares.old
        (level_shares n caps.now floors.now) }
{
    let m = parents.len();
    let mut adjusted = [0u64; MOST_ARCS];
    write_at(
        parents,
        costs,
        vertices,
        caps,
        floors,
        &mut adjusted[0..m],
        shares,
    )
}
