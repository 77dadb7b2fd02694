// The group search: of all groups the one that overpays most, and of those the one with fewest members, in two
// passes over the tree.
#![tactic(auto)]

mod active;
mod excess;

ghost use Rattle.std.specs.Prelude.{◌≡◌, pos};
ghost use Rattle.game.specs.Network.{member_count};
ghost use Rattle.game.specs.Tree.{network_of};
ghost use Rattle.game.specs.Group.{words_of};
ghost use Rattle.game.specs.Proposal.{overpayment};
ghost use Rattle.game.specs.Search.{is_in, named};
ghost use Rattle.answer_forms.specs.Answer.{accepted};
ghost use Rattle.answers.specs.Checks.{proposal_check};
ghost use Rattle.tree.specs.Passes.{Sound, Costed, Marked};

// What the named group overpays, and its words.
#[derive(Debug, Clone, Copy, PartialEq, Eq)]
pub struct Found {
    pub amount: u64,
    pub group: [u64; 16],
}

pub fn search(parents: &[u16], costs: &[u32], marks: &[u16], proposal: &[i64]) -> Found
    requires sound { Sound parents.now }
    requires costed { Costed parents.now costs.now }
    requires marked { Marked parents.now marks.now }
    requires proposal_value { proposal_check (member_count (network_of parents.now costs.now marks.now)) proposal.now
        ≡ accepted }
    ensures shares_value { let n = network_of parents.now costs.now marks.now in
        let shares = proposal.now in
        overpayment n shares (is_in (named n shares)) ≡ pos result.amount }
    ensures group_value { let n = network_of parents.now costs.now marks.now in
        result.group ≡ words_of (is_in (named n proposal.now)) }
{
    let found = excess::find_excesses(parents, costs, marks, proposal);
    // A copy of its own: lent as a part of `found`, the list stands on the stack twice.
    let of = found.of;
    let group = active::choose_active(parents, marks, &of);
    Found {
        amount: found.total,
        group,
    }
}
