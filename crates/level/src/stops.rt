// What stops the level split, from the last arc down: the users' caps are short of the adjusted need, or at an arc from
// the source the adjusted need is above the need.
ghost use Rattle.std.specs.Prelude.{◌≡◌, ℕ, length};
ghost use Rattle.basics.specs.Sum.{list};
ghost use Rattle.game.specs.Network.{member_count};
ghost use Rattle.game.specs.Floors.{adjusted};
ghost use Rattle.tree.specs.Passes.{Sound, Costed, Listed, Capped, network_at};
ghost use Rattle.answers.specs.Level.{split, stop_or, split_from};
ghost use Rattle.level.specs.Refusals.{answer_of};
ghost use Rattle.level.specs.Stops.{stop_from};

use crate::adjusted::write_adjusted;
use crate::refusal::LevelRefusal;
use answer_forms::Reason;
use limits::MOST_ARCS;

// 9, then 28, at one arc.
fn stop_at(arc: usize, parent: u16, need: u64, adjusted: u64, caps: u64) -> Result<(), LevelRefusal>
    ensures { (members : ℕ) → answer_of members result
        ≡ stop_or arc parent need adjusted caps (split members) }
{
    if caps < adjusted {
        return Err(LevelRefusal {
            refusal: Reason::CapsShort.at(arc),
            shortfall: adjusted - caps,
        });
    }
    if 0 < parent {
        return Ok(());
    }
    if need < adjusted {
        return Err(Reason::FloorsAboveNeed.at(arc).into());
    }
    Ok(())
}

// The arcs from the last down, by their needs, adjusted needs and cap sums.
fn first_stop(
    parents: &[u16],
    needs: &[u64],
    adjusted: &[u64],
    sums: &[u64],
) -> Result<(), LevelRefusal>
    requires needs_len { length needs.now ≡ length parents.now }
    requires adjusted_len { length adjusted.now ≡ length parents.now }
    requires sums_len { length sums.now ≡ length parents.now }
    ensures { (members : ℕ) → answer_of members result
        ≡ stop_from members parents.now needs.now adjusted.now sums.now
        (length parents.now) }
{
    for i in (0..parents.len()).rev() {
        stop_at(i + 1, parents[i], needs[i], adjusted[i], sums[i])?;
    }
    Ok(())
}

// `needs` and `sums` are room for one entry an arc.
fn compare(
    parents: &[u16],
    costs: &[u32],
    vertices: &[u16],
    caps: &[u64],
    floors: &[u64],
    needs: &mut [u64],
    sums: &mut [u64],
    out: &mut [u64],
) -> Result<(), LevelRefusal>
    requires sound { Sound parents.now }
    requires costed { Costed parents.now costs.now }
    requires listed { Listed parents.now vertices.now }
    requires capped { Capped (length vertices.now) caps.now }
    requires capped_2 { Capped (length vertices.now) floors.now }
    requires needs_len { length needs.old ≡ length parents.now }
    requires sums_len { length sums.old ≡ length parents.now }
    requires out_len { length out.old ≡ length parents.now }
    ensures result_value { let n = network_at parents.now costs.now vertices.now in
        answer_of (member_count n) result
        ≡ split_from n caps.now floors.now (length parents.now) }
    ensures out_after { out.new ≡ list (length parents.now)
        (adjusted (network_at parents.now costs.now vertices.now)
        floors.now) }
{
    tree::write_needs(parents, costs, needs);
    write_adjusted(parents, costs, vertices, floors, needs, out);
    tree::write_cap_sums(parents, vertices, caps, sums);
    first_stop(parents, needs, out, sums)
}

// Writes the adjusted needs; answers what stops the split.
pub fn find_stop(
    parents: &[u16],
    costs: &[u32],
    vertices: &[u16],
    caps: &[u64],
    floors: &[u64],
    out: &mut [u64],
) -> Result<(), LevelRefusal>
    requires sound { Sound parents.now }
    requires costed { Costed parents.now costs.now }
    requires listed { Listed parents.now vertices.now }
    requires capped { Capped (length vertices.now) caps.now }
    requires capped_2 { Capped (length vertices.now) floors.now }
    requires out_len { length out.old ≡ length parents.now }
    ensures result_value { let n = network_at parents.now costs.now vertices.now in
        answer_of (member_count n) result
        ≡ split_from n caps.now floors.now (length parents.now) }
    ensures out_after { out.new ≡ list (length parents.now)
        (adjusted (network_at parents.now costs.now vertices.now)
        floors.now) }
{
    let m = parents.len();
    let mut needs = [0u64; MOST_ARCS];
    let mut sums = [0u64; MOST_ARCS];
    compare(
        parents,
        costs,
        vertices,
        caps,
        floors,
        &mut needs[0..m],
        &mut sums[0..m],
        out,
    )
}
