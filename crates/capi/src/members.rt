// The number of members, and the members' vertices.
ghost use Rattle.std.specs.Prelude.{◌≡◌};
ghost use Rattle.game.specs.Tree.{tree_of};
ghost use Rattle.answers.specs.Members.{member_count_answer, members_answer, members_list};
ghost use Rattle.answer_forms.specs.Checked.{answer_of};
ghost use Rattle.capi.specs.Structs.{encode_members, decode_members};

use engine::Refusal;

#[repr(C)]
#[derive(Clone, Copy, Debug, PartialEq, Eq)]
pub struct ZilqodurMembers {
    pub refusal: u32,
    pub place: usize,
    pub members: usize,
}

impl From<Result<usize, Refusal>> for ZilqodurMembers {
    ghost from_gives = { λ found s. s ≡ encode_members (answer_of found) };

    fn from(found: Result<usize, Refusal>) -> Self {
        match found {
            Ok(members) => ZilqodurMembers {
                refusal: 0,
                place: 0,
                members,
            },
            Err(refusal) => ZilqodurMembers {
                refusal: refusal.number(),
                place: refusal.place,
                members: 0,
            },
        }
    }
}

#[unsafe(no_mangle)]
pub extern "C" fn zilqodur_count_members(
    parents: &[u16],
    costs: &[u32],
    marks: &[u16],
) -> ZilqodurMembers
    ensures result_value { decode_members result
        ≡ member_count_answer (tree_of parents.now costs.now marks.now) }
    ensures value { result ≡ encode_members (decode_members result) }
{
    ZilqodurMembers::from(engine::count_members(parents, costs, marks))
}

#[unsafe(no_mangle)]
pub extern "C" fn zilqodur_list_members(
    parents: &[u16],
    costs: &[u32],
    marks: &[u16],
    out: &mut [u16],
) -> ZilqodurMembers
    ensures result_value { decode_members result
        ≡ members_answer (tree_of parents.now costs.now marks.now) out.old }
    ensures value { result ≡ encode_members (decode_members result) }
    ensures out_after { out.new
        ≡ members_list (tree_of parents.now costs.now marks.now) out.old }
{
    ZilqodurMembers::from(engine::list_members(parents, costs, marks, out))
}
