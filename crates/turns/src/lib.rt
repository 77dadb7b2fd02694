// The units that one arc leaves over, given to its users in turn. A user is its key, tally * base + number: the tally
// is how many such units it has had at the arcs handled so far, and base is above every number. So the smaller key is
// served first.
#![tactic(auto)]

mod bound;
mod count;
mod ends;
mod raise;

ghost use Rattle.std.specs.Prelude.{◌≡◌, ◌-◌, ◌≤◌, length};
ghost use Rattle.limits.specs.Limits.{most_arcs};
ghost use Rattle.turns.specs.Keys.{Keys, HandedBack};

// The leftover units of one arc: takes its users' tallies, as keys, and hands them back.
pub fn give_in_turn(keys: &mut [u32], base: u32, more: u32)
    requires keys { Keys keys.old }
    requires base_le_most_arcs { base ≤ most_arcs }
    requires more_in_bounds { more ≤ length keys.old - 1 }
    ensures { HandedBack base more keys.old keys.new }
{
    if more == 0 {
        return;
    }
    let bound = bound::find_bound(keys, base, more);
    raise::raise_below(keys, base, bound);
}
