// The checks on a tree, on caps and on a proposal.
ghost use Rattle.std.specs.Prelude.{◌≡◌};
ghost use Rattle.game.specs.Tree.{tree_of};
ghost use Rattle.answers.specs.Checks.{tree_check, proposal_check};
ghost use Rattle.answers.specs.Level.{caps_check};
ghost use Rattle.answer_forms.specs.Checked.{check_of};
ghost use Rattle.capi.specs.Structs.{encode_check, decode_check};

use engine::Refusal;

#[repr(C)]
#[derive(Clone, Copy, Debug, PartialEq, Eq)]
pub struct ZilqodurCheck {
    pub refusal: u32,
    pub place: usize,
}

impl From<Result<(), Refusal>> for ZilqodurCheck {
    ghost from_gives = { λ found s. s ≡ encode_check (check_of found) };

    fn from(found: Result<(), Refusal>) -> Self {
        match found {
            Ok(()) => ZilqodurCheck {
                refusal: 0,
                place: 0,
            },
            Err(refusal) => ZilqodurCheck {
                refusal: refusal.number(),
                place: refusal.place,
            },
        }
    }
}

#[unsafe(no_mangle)]
pub extern "C" fn zilqodur_check_tree(
    parents: &[u16],
    costs: &[u32],
    marks: &[u16],
) -> ZilqodurCheck
    ensures result_value { decode_check result
        ≡ tree_check (tree_of parents.now costs.now marks.now) }
    ensures value { result ≡ encode_check (decode_check result) }
{
    ZilqodurCheck::from(engine::check_tree(parents, costs, marks))
}

#[unsafe(no_mangle)]
pub extern "C" fn zilqodur_check_caps(members: usize, caps: &[u64]) -> ZilqodurCheck
    ensures result_value { decode_check result ≡ caps_check members caps.now }
    ensures value { result ≡ encode_check (decode_check result) }
{
    ZilqodurCheck::from(engine::check_caps(members, caps))
}

#[unsafe(no_mangle)]
pub extern "C" fn zilqodur_check_proposal(members: usize, proposal: &[i64]) -> ZilqodurCheck
    ensures result_value { decode_check result ≡ proposal_check members proposal.now }
    ensures value { result ≡ encode_check (decode_check result) }
{
    ZilqodurCheck::from(engine::check_proposal(members, proposal))
}
