// The needs of all arcs.
ghost use Rattle.std.specs.Prelude.{◌≡◌};
ghost use Rattle.game.specs.Tree.{tree_of};
ghost use Rattle.answers.specs.Needs.{needs_answer, needs_list};
ghost use Rattle.engine.specs.Outcomes.{needs_of};
ghost use Rattle.capi.specs.Structs.{encode_needs, decode_needs};

use engine::{NeedsFound, Refusal};

#[repr(C)]
#[derive(Clone, Copy, Debug, PartialEq, Eq)]
pub struct ZilqodurNeeds {
    pub refusal: u32,
    pub place: usize,
    pub whole: u64,
    pub members: usize,
}

impl From<Result<NeedsFound, Refusal>> for ZilqodurNeeds {
    ghost from_gives = { λ found s. s ≡ encode_needs (needs_of found) };

    fn from(found: Result<NeedsFound, Refusal>) -> Self {
        match found {
            Ok(needs) => ZilqodurNeeds {
                refusal: 0,
                place: 0,
                whole: needs.whole,
                members: needs.members,
            },
            Err(refusal) => ZilqodurNeeds {
                refusal: refusal.number(),
                place: refusal.place,
                whole: 0,
                members: 0,
            },
        }
    }
}

#[unsafe(no_mangle)]
pub extern "C" fn zilqodur_list_needs(
    parents: &[u16],
    costs: &[u32],
    marks: &[u16],
    out: &mut [u64],
) -> ZilqodurNeeds
    ensures result_value { decode_needs result
        ≡ needs_answer (tree_of parents.now costs.now marks.now) out.old }
    ensures value { result ≡ encode_needs (decode_needs result) }
    ensures out_after { out.new
        ≡ needs_list (tree_of parents.now costs.now marks.now) out.old }
{
    ZilqodurNeeds::from(engine::list_needs(parents, costs, marks, out))
}
