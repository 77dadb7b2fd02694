// A group's size and cost.
ghost use Rattle.std.specs.Prelude.{◌≡◌};
ghost use Rattle.basics.specs.Bit.{bit};
ghost use Rattle.basics.specs.Sum.{size};
ghost use Rattle.game.specs.Network.{group_cost, member_count};
ghost use Rattle.game.specs.Tree.{tree_of, network_of};
ghost use Rattle.game.specs.Group.{group_by_number};
ghost use Rattle.answer_forms.specs.Answer.{answer};
ghost use Rattle.answers.specs.Checks.{group_check};
ghost use Rattle.answers.specs.GroupCost.{group_cost_answer};
ghost use Rattle.tree.specs.Passes.{Sound, Costed, Marked};
ghost use Rattle.engine.specs.Outcomes.{group_cost_of};

use answer_forms::Refusal;
use limits::MOST_ARCS;

// How many members the group has, and its cost.
#[derive(Clone, Copy, Debug, PartialEq, Eq)]
pub struct GroupCost {
    pub size: usize,
    pub cost: u64,
}

// The tree is accepted and its members are marked. 5.
fn cost_in_tree(
    parents: &[u16],
    costs: &[u32],
    marks: &[u16],
    group: [u64; 16],
) -> Result<GroupCost, Refusal>
    requires sound { Sound parents.now }
    requires costed { Costed parents.now costs.now }
    requires marked { Marked parents.now marks.now }
    ensures { let n = network_of parents.now costs.now marks.now in
        group_cost_of result ≡ answer (group_check (member_count n) group)
        (record { size = size (member_count n) (bit group); cost = group_cost n (group_by_number n (bit group)) }) }
{
    let members = tree::count_members(marks);
    bits::check_group(members, group)?;
    let size = bits::size_of(group);
    let cost = tree::cost_of(parents, costs, marks, group, members);
    Ok(GroupCost { size, cost })
}

// The tree's refusals, then 5.
#[tactic(auto, unfolding(answers::specs::GroupCost::group_cost_answer))]
pub fn group_cost(
    parents: &[u16],
    costs: &[u32],
    marks: &[u16],
    group: [u64; 16],
) -> Result<GroupCost, Refusal>
    ensures { group_cost_of result
        ≡ group_cost_answer (tree_of parents.now costs.now marks.now) group }
{
    checks::check_tree(parents, costs, marks)?;
    let m = parents.len();
    let mut counted = [0u32; MOST_ARCS];
    tree::write_counted(parents, costs, marks, &mut counted[0..m]);
    cost_in_tree(parents, &counted[0..m], marks, group)
}
