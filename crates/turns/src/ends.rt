// The least and the greatest key.
ghost use Rattle.turns.specs.Bound.{Ends};
ghost use Rattle.turns.specs.Keys.{Keys};

// Every key is below it.
const KEY_LIMIT: u32 = 1048576;

#[derive(Debug, Clone, Copy, PartialEq, Eq)]
pub struct KeyEnds {
    pub least: u32,
    pub greatest: u32,
}

pub fn ends_of(keys: &[u32]) -> KeyEnds
    requires { Keys keys.now }
    ensures { Ends keys.now result.least result.greatest }
{
    let mut least = KEY_LIMIT;
    let mut greatest: u32 = 0;
    for key in keys {
        least = least.min(*key);
        greatest = greatest.max(*key);
    }
    KeyEnds { least, greatest }
}
