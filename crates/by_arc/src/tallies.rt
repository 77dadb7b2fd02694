// The tallies after all arcs, as keys in depth-first order.
ghost use Rattle.std.specs.Prelude.{◌≡◌, [], length};
ghost use Rattle.basics.specs.Sum.{list};
ghost use Rattle.game.specs.ByArc.{user_count, handled};
ghost use Rattle.tree.specs.Passes.{Sound, Listed, network_at};
ghost use Rattle.users.specs.Users.{LaidOut};
ghost use Rattle.turns.specs.Keys.{KeysOf};
ghost use Rattle.by_arc.specs.Shares.{AllTallied};

use crate::divide::left_of;
use limits::MOST_ARCS;

// At first every tally is 0, and a key is a number.
fn write_numbers(order: &[u16], keys: &mut [u32])
    requires { length keys.old ≡ length order.now }
    ensures { keys.new ≡ order.now }
{
    for i in 0..order.len() {
        keys[i] = u32::from(order[i]);
    }
}

// The arcs from the last down, each with its users' part of the keys. `parents` and `vertices` are there for the
// contract, which says by them who the users are.
fn take_turns(
    parents: &[u16],
    costs: &[u32],
    vertices: &[u16],
    counts: &[u64],
    starts: &[u64],
    order: &[u16],
    keys: &mut [u32],
)
    requires sound { Sound parents.now }
    requires costs_len { length costs.now ≡ length parents.now }
    requires laid_out { LaidOut (network_at parents.now [] vertices.now) starts.now counts.now order.now }
    requires keys_value { keys.old ≡ order.now }
    ensures { KeysOf (length order.now)
        (handled (network_at parents.now costs.now vertices.now)
        (length parents.now)).tallies
        order.now keys.new }
{
    let base = order.len() as u32;
    for i in (0..costs.len()).rev() {
        let users = counts[i] as usize;
        let more = left_of(costs[i], users as u32);
        let from = starts[i] as usize;
        turns::give_in_turn(&mut keys[from..from + users], base, more);
    }
}

// `order` is room for one entry a member.
fn write_laid_out(
    parents: &[u16],
    costs: &[u32],
    vertices: &[u16],
    counts: &[u64],
    starts: &mut [u64],
    order: &mut [u16],
    keys: &mut [u32],
)
    requires sound { Sound parents.now }
    requires costs_len { length costs.now ≡ length parents.now }
    requires listed { Listed parents.now vertices.now }
    requires counts_value { counts.now
        ≡ list (length parents.now) (user_count (network_at parents.now [] vertices.now)) }
    requires starts_len { length starts.old ≡ length parents.now }
    requires order_len { length order.old ≡ length vertices.now }
    requires keys_len { length keys.old ≡ length vertices.now }
    ensures { AllTallied
        (network_at parents.now costs.now vertices.now)
        starts.new keys.new }
{
    users::lay_out(parents, vertices, counts, starts, order);
    write_numbers(order, keys);
    take_turns(parents, costs, vertices, counts, starts, order, keys);
}

// Writes each member's key where the users of its arc begin.
pub fn write_tallies(
    parents: &[u16],
    costs: &[u32],
    vertices: &[u16],
    counts: &[u64],
    starts: &mut [u64],
    keys: &mut [u32],
)
    requires sound { Sound parents.now }
    requires costs_len { length costs.now ≡ length parents.now }
    requires listed { Listed parents.now vertices.now }
    requires counts_value { counts.now
        ≡ list (length parents.now) (user_count (network_at parents.now [] vertices.now)) }
    requires starts_len { length starts.old ≡ length parents.now }
    requires keys_len { length keys.old ≡ length vertices.now }
    ensures { AllTallied
        (network_at parents.now costs.now vertices.now)
        starts.new keys.new }
{
    let n = vertices.len();
    let mut order = [0u16; MOST_ARCS];
    write_laid_out(
        parents,
        costs,
        vertices,
        counts,
        starts,
        &mut order[0..n],
        keys,
    );
}
