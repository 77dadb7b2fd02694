// A group's size and cost.
ghost use Rattle.std.specs.Prelude.{◌≡◌};
ghost use Rattle.game.specs.Tree.{tree_of};
ghost use Rattle.answers.specs.GroupCost.{group_cost_answer};
ghost use Rattle.engine.specs.Outcomes.{group_cost_of};
ghost use Rattle.capi.specs.Structs.{encode_group, decode_group};

use engine::{GroupCost, Refusal};

#[repr(C)]
#[derive(Clone, Copy, Debug, PartialEq, Eq)]
pub struct ZilqodurGroup {
    pub refusal: u32,
    pub place: usize,
    pub size: usize,
    pub cost: u64,
}

impl From<Result<GroupCost, Refusal>> for ZilqodurGroup {
    ghost from_gives = { λ found s. s ≡ encode_group (group_cost_of found) };

    fn from(found: Result<GroupCost, Refusal>) -> Self {
        match found {
            Ok(group) => ZilqodurGroup {
                refusal: 0,
                place: 0,
                size: group.size,
                cost: group.cost,
            },
            Err(refusal) => ZilqodurGroup {
                refusal: refusal.number(),
                place: refusal.place,
                size: 0,
                cost: 0,
            },
        }
    }
}

#[unsafe(no_mangle)]
pub extern "C" fn zilqodur_group_cost(
    parents: &[u16],
    costs: &[u32],
    marks: &[u16],
    group: &[u64; 16],
) -> ZilqodurGroup
    ensures result_value { decode_group result
        ≡ group_cost_answer (tree_of parents.now costs.now marks.now)
        group.now }
    ensures value { result ≡ encode_group (decode_group result) }
{
    ZilqodurGroup::from(engine::group_cost(parents, costs, marks, *group))
}
