// The cost of a group in one pass: that an arc is used is carried to its parent.
ghost use Rattle.std.specs.Prelude.{◌≡◌};
ghost use Rattle.game.specs.Network.{group_cost, member_count};
ghost use Rattle.game.specs.Tree.{network_of};
ghost use Rattle.basics.specs.Bit.{bit};
ghost use Rattle.game.specs.Group.{group_by_number};
ghost use Rattle.tree.specs.Passes.{Sound, Costed, Marked};

use limits::MOST_ARCS;

// The cost of the group whose member numbers are set in the words.
pub fn cost_of(
    parents: &[u16],
    costs: &[u32],
    marks: &[u16],
    words: [u64; 16],
    members: usize,
) -> u64
    requires sound { Sound parents.now }
    requires costed { Costed parents.now costs.now }
    requires marked { Marked parents.now marks.now }
    requires members_value { members ≡ member_count (network_of parents.now costs.now marks.now) }
    ensures { let n = network_of parents.now costs.now marks.now in
        result ≡ group_cost n (group_by_number n (bit words)) }
{
    let mut used = [false; MOST_ARCS + 1];
    let mut j = members;
    let mut cost: u64 = 0;
    for i in (0..parents.len()).rev() {
        let here = if marks[i] == 1 {
            j -= 1;
            numbers::bit_of(words[j / 64], j % 64)
        } else {
            used[i + 1]
        };
        if here {
            cost += u64::from(costs[i]);
        }
        let p = usize::from(parents[i]);
        used[p] |= here;
    }
    cost
}
