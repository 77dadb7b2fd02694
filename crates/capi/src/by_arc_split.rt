// The by-arc split.
ghost use Rattle.std.specs.Prelude.{◌≡◌};
ghost use Rattle.game.specs.Tree.{tree_of};
ghost use Rattle.answers.specs.ByArc.{by_arc_answer, by_arc_list};
ghost use Rattle.capi.specs.Structs.{encode_members, decode_members};

use crate::members::ZilqodurMembers;

#[unsafe(no_mangle)]
pub extern "C" fn zilqodur_split_by_arc(
    parents: &[u16],
    costs: &[u32],
    marks: &[u16],
    out: &mut [u64],
) -> ZilqodurMembers
    ensures result_value { decode_members result
        ≡ by_arc_answer (tree_of parents.now costs.now marks.now) out.old }
    ensures value { result ≡ encode_members (decode_members result) }
    ensures out_after { out.new
        ≡ by_arc_list (tree_of parents.now costs.now marks.now) out.old }
{
    ZilqodurMembers::from(engine::split_by_arc(parents, costs, marks, out))
}
