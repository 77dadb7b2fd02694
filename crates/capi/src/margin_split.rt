// The widest margin in a branch.
ghost use Rattle.std.specs.Prelude.{◌≡◌};
ghost use Rattle.game.specs.Tree.{tree_of};
ghost use Rattle.answers.specs.Margin.{margin_answer, margin_list};
ghost use Rattle.engine.specs.Outcomes.{margin_of};
ghost use Rattle.capi.specs.Structs.{encode_margin, decode_margin};

use engine::{MarginSplit, Refusal};

#[repr(C)]
#[derive(Clone, Copy, Debug, PartialEq, Eq)]
pub struct ZilqodurMargin {
    pub refusal: u32,
    pub place: usize,
    pub margin: u64,
    pub users: usize,
}

impl From<Result<MarginSplit, Refusal>> for ZilqodurMargin {
    ghost from_gives = { λ found s. s ≡ encode_margin (margin_of found) };

    fn from(found: Result<MarginSplit, Refusal>) -> Self {
        match found {
            Ok(split) => ZilqodurMargin {
                refusal: 0,
                place: 0,
                margin: split.margin,
                users: split.users,
            },
            Err(refusal) => ZilqodurMargin {
                refusal: refusal.number(),
                place: refusal.place,
                margin: 0,
                users: 0,
            },
        }
    }
}

#[unsafe(no_mangle)]
pub extern "C" fn zilqodur_split_margin(
    parents: &[u16],
    costs: &[u32],
    marks: &[u16],
    arc: usize,
    out: &mut [u64],
) -> ZilqodurMargin
    ensures result_value { decode_margin result
        ≡ margin_answer (tree_of parents.now costs.now marks.now) arc
        out.old }
    ensures value { result ≡ encode_margin (decode_margin result) }
    ensures out_after { out.new
        ≡ margin_list (tree_of parents.now costs.now marks.now) arc
        out.old }
{
    ZilqodurMargin::from(engine::split_margin(parents, costs, marks, arc, out))
}
