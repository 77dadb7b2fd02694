// The members in depth-first order, so that the users of every arc stand side by side in one list.
#![tactic(auto)]

ghost use Rattle.std.specs.Prelude.{◌≡◌, [], length};
ghost use Rattle.basics.specs.Sum.{list};
ghost use Rattle.game.specs.ByArc.{user_count};
ghost use Rattle.tree.specs.Passes.{Sound, Listed, network_at};
ghost use Rattle.users.specs.Users.{LaidOut};
ghost use Rattle.users.specs.Layout.{Counts, Begun, Apart, Ordered};

use limits::MOST_ARCS;

// Writes for each arc where its users begin. `next` holds for each vertex where those of its next child arc do.
fn write_starts(parents: &[u16], counts: &[u64], starts: &mut [u64])
    requires sound { Sound parents.now }
    requires counts { Counts (length parents.now) counts.now }
    requires starts_len { length starts.old ≡ length parents.now }
    ensures { Begun parents.now counts.now starts.new }
{
    let mut next = [0u64; MOST_ARCS + 1];
    for i in 0..parents.len() {
        let p = usize::from(parents[i]);
        let start = next[p];
        starts[i] = start;
        next[p] = start + counts[i];
        next[i + 1] = start;
    }
}

// Writes each member's number where the users of its arc begin, which is itself alone.
fn write_order(vertices: &[u16], starts: &[u64], order: &mut [u16])
    requires apart { Apart vertices.now starts.now }
    requires order_len { length order.old ≡ length vertices.now }
    ensures { Ordered vertices.now starts.now order.new }
{
    for (j, vertex) in vertices.iter().enumerate() {
        let arc = usize::from(*vertex) - 1;
        let place = starts[arc] as usize;
        order[place] = j as u16;
    }
}

// Writes the members in depth-first order and, for each arc, where its users begin in that list; `counts` holds
// how many they are.
pub fn lay_out(
    parents: &[u16],
    vertices: &[u16],
    counts: &[u64],
    starts: &mut [u64],
    order: &mut [u16],
)
    requires sound { Sound parents.now }
    requires listed { Listed parents.now vertices.now }
    requires counts_value { counts.now
        ≡ list (length parents.now) (user_count (network_at parents.now [] vertices.now)) }
    requires starts_len { length starts.old ≡ length parents.now }
    requires order_len { length order.old ≡ length vertices.now }
    ensures { LaidOut (network_at parents.now [] vertices.now)
        starts.new counts.now order.new }
{
    write_starts(parents, counts, starts);
    write_order(vertices, starts, order);
}
