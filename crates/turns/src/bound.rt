// The bound that as many keys are below as there are units.
ghost use Rattle.std.specs.Prelude.{◌≡◌, ◌+◌, ◌≤◌, ◌<◌, length};
ghost use Rattle.limits.specs.Limits.{most_arcs};
ghost use Rattle.turns.specs.Keys.{lower, key_limit, Keys};

use crate::count::count_below;
use crate::ends::ends_of;

// After so many tries the way is halved.
const TRIES: u32 = 6;

// Where the bound would be if the keys were evenly spread.
fn in_proportion(low: u32, high: u32, under: u32, over: u32, more: u32) -> u32
    requires low_lt_high { low < high }
    requires high_le_key_limit { high ≤ key_limit }
    requires under_lt_more { under < more }
    requires more_lt_over { more < over }
    requires more_le_most_arcs { more ≤ most_arcs }
{
    low + (high - low) * (more - under) / (over - under)
}

// A number to try; any will do. Most users have had as many units as each other, or one less: so the first is one tally
// below the end.
fn guess(low: u32, high: u32, under: u32, over: u32, more: u32, base: u32, tries: u32) -> u32
    requires low_lt_high { low < high }
    requires high_le_key_limit { high ≤ key_limit }
    requires under_lt_more { under < more }
    requires more_lt_over { more < over }
    requires more_le_most_arcs { more ≤ most_arcs }
{
    if tries == 0 && base < high - low {
        high - base
    } else if TRIES <= tries {
        low + (high - low) / 2
    } else {
        in_proportion(low, high, under, over, more)
    }
}

// The number itself where it is between the two, else the middle.
fn inside(low: u32, high: u32, number: u32) -> u32
    requires { low + 1 < high }
    ensures lower_bound { low < result }
    ensures upper_bound { result < high }
{
    if low < number && number < high {
        number
    } else {
        low + (high - low) / 2
    }
}

// `under` keys are below `low`, at most as many as there are units, and `over` below `high`, more than that.
pub fn find_bound(keys: &[u32], base: u32, more: u32) -> u32
    requires keys { Keys keys.now }
    requires more_in_bounds { more < length keys.now }
    ensures { lower keys.now result ≡ more }
{
    let ends = ends_of(keys);
    let mut low = ends.least;
    let mut high = ends.greatest + 1;
    let mut under: u32 = 0;
    let mut over = keys.len() as u32;
    let mut tries: u32 = 0;
    while under < more {
        let number = guess(low, high, under, over, more, base, tries);
        let middle = inside(low, high, number);
        let count = count_below(keys, middle);
        if more < count {
            high = middle;
            over = count;
        } else {
            low = middle;
            under = count;
        }
        tries += 1;
    }
    low
}
