// Why the level split is refused.
ghost use Rattle.std.specs.Prelude.{◌≡◌};
ghost use Rattle.level.specs.Refusals.{not_short};

use answer_forms::Refusal;

#[derive(Clone, Copy, Debug, PartialEq, Eq)]
pub struct LevelRefusal {
    pub refusal: Refusal,
    // 0 except with 9.
    pub shortfall: u64,
}

impl From<Refusal> for LevelRefusal {
    ghost from_gives = { λ refusal found. found ≡ not_short refusal };

    fn from(refusal: Refusal) -> Self {
        LevelRefusal {
            refusal,
            shortfall: 0,
        }
    }
}
