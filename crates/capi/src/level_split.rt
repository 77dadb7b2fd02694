// The level split under caps and floors.
ghost use Rattle.std.specs.Prelude.{◌≡◌};
ghost use Rattle.game.specs.Tree.{tree_of};
ghost use Rattle.answers.specs.Level.{level_answer, level_list};
ghost use Rattle.engine.specs.Outcomes.{level_of};
ghost use Rattle.capi.specs.Structs.{encode_level, decode_level};

use engine::LevelRefusal;

#[repr(C)]
#[derive(Clone, Copy, Debug, PartialEq, Eq)]
pub struct ZilqodurLevel {
    pub refusal: u32,
    pub place: usize,
    pub shortfall: u64,
    pub members: usize,
}

impl From<Result<usize, LevelRefusal>> for ZilqodurLevel {
    ghost from_gives = { λ found s. s ≡ encode_level (level_of found) };

    fn from(found: Result<usize, LevelRefusal>) -> Self {
        match found {
            Ok(members) => ZilqodurLevel {
                refusal: 0,
                place: 0,
                shortfall: 0,
                members,
            },
            Err(found) => ZilqodurLevel {
                refusal: found.refusal.number(),
                place: found.refusal.place,
                shortfall: found.shortfall,
                members: 0,
            },
        }
    }
}

#[unsafe(no_mangle)]
pub extern "C" fn zilqodur_split_level(
    parents: &[u16],
    costs: &[u32],
    marks: &[u16],
    caps: &[u64],
    floors: &[u64],
    out: &mut [u64],
) -> ZilqodurLevel
    ensures result_value { decode_level result
        ≡ level_answer (tree_of parents.now costs.now marks.now)
        caps.now floors.now out.old }
    ensures value { result ≡ encode_level (decode_level result) }
    ensures out_after { out.new
        ≡ level_list (tree_of parents.now costs.now marks.now)
        caps.now floors.now out.old }
{
    ZilqodurLevel::from(engine::split_level(parents, costs, marks, caps, floors, out))
}
