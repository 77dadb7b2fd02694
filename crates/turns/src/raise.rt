// One tally more for the keys below a bound.
ghost use Rattle.std.specs.Prelude.{◌≤◌};
ghost use Rattle.limits.specs.Limits.{most_arcs};
ghost use Rattle.turns.specs.Bound.{Raised};
ghost use Rattle.turns.specs.Keys.{Keys};

pub fn raise_below(keys: &mut [u32], base: u32, bound: u32)
    requires keys { Keys keys.old }
    requires base_le_most_arcs { base ≤ most_arcs }
    ensures { Raised base bound keys.old keys.new }
{
    for key in keys.iter_mut() {
        // With the sum in a branch the loop takes three times as long.
        let more = if *key < bound { base } else { 0 };
        *key += more;
    }
}
