// The marks of the dead ends.
ghost use Rattle.std.specs.Prelude.{◌≡◌};
ghost use Rattle.answers.specs.DeadEnds.{dead_ends_answer, dead_ends_list};
ghost use Rattle.capi.specs.Structs.{encode_members, decode_members};

use crate::members::ZilqodurMembers;

#[unsafe(no_mangle)]
pub extern "C" fn zilqodur_mark_dead_ends(
    parents: &[u16],
    costs: &[u32],
    out: &mut [u16],
) -> ZilqodurMembers
    ensures result_value { decode_members result
        ≡ dead_ends_answer parents.now costs.now out.old }
    ensures value { result ≡ encode_members (decode_members result) }
    ensures out_after { out.new
        ≡ dead_ends_list parents.now costs.now out.old }
{
    ZilqodurMembers::from(engine::mark_dead_ends(parents, costs, out))
}
