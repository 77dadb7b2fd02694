// The raised needs at a margin, in one pass from the last arc down: an arc's raised need is carried to its parent.
ghost use Rattle.std.specs.Prelude.{◌≡◌, ◌+◌, ◌≤◌, max, length, ltb};
ghost use Rattle.basics.specs.Sum.{pick, list};
ghost use Rattle.game.specs.Margin.{raised};
ghost use Rattle.limits.specs.Inner.{most_whole};
ghost use Rattle.tree.specs.Passes.{network_at};
ghost use Rattle.margin.specs.Passes.{Given};

use limits::MOST_ARCS;

// The need, with the margin where some member does not use the arc, or what the child arcs carried to it if that is
// more; nothing where the arc has no users.
fn raised_need(need: u64, count: u64, users: u64, margin: u64, carried: u64) -> u64
    requires need_le_most_whole { need ≤ most_whole }
    requires margin_le_most_whole { margin ≤ most_whole }
    ensures { result ≡ pick (ltb 0 count) (max (need + pick (ltb count users) margin) carried) }
{
    let own = if count < users { need + margin } else { need };
    if 0 < count { own.max(carried) } else { 0 }
}

// Writes the raised need of each arc. Costs and vertices stand for the network; the pass reads the needs, the numbers
// of users and how many members there are.
pub fn write_raised(
    parents: &[u16],
    costs: &[u32],
    vertices: &[u16],
    needs: &[u64],
    counts: &[u64],
    margin: u64,
    out: &mut [u64],
)
    requires given { Given parents.now costs.now vertices.now needs.now counts.now }
    requires margin_le_most_whole { margin ≤ most_whole }
    requires out_len { length out.old ≡ length parents.now }
    ensures { out.new ≡ list (length parents.now)
        (raised (network_at parents.now costs.now vertices.now) margin) }
{
    let users = vertices.len() as u64;
    let mut below = [0u64; MOST_ARCS + 1];
    for i in (0..parents.len()).rev() {
        let raised = raised_need(needs[i], counts[i], users, margin, below[i + 1]);
        out[i] = raised;
        below[usize::from(parents[i])] += raised;
    }
}
