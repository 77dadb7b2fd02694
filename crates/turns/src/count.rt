// How many keys are below a bound.
ghost use Rattle.std.specs.Prelude.{◌≡◌, ◌≤◌, length};
ghost use Rattle.limits.specs.Limits.{most_arcs};
ghost use Rattle.turns.specs.Keys.{lower};

pub fn count_below(keys: &[u32], bound: u32) -> u32
    requires { length keys.now ≤ most_arcs }
    ensures { result ≡ lower keys.now bound }
{
    // `filter` and `count` take five times as long.
    let mut count = 0;
    for key in keys {
        count += u32::from(*key < bound);
    }
    count
}
