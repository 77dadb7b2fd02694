// The excess of each arc: what the positive shares of its users exceed its cost by, after the arcs below it.
ghost use Rattle.std.specs.Prelude.{◌≡◌, ◌<◌, true, length, eqb};
ghost use Rattle.basics.specs.Sum.{pick};
ghost use Rattle.basics.specs.Integer.{plus};
ghost use Rattle.game.specs.Network.{member_count};
ghost use Rattle.game.specs.Proposal.{share};
ghost use Rattle.game.specs.Tree.{network_of};
ghost use Rattle.answer_forms.specs.Answer.{accepted};
ghost use Rattle.answers.specs.Checks.{proposal_check};
ghost use Rattle.tree.specs.Passes.{Sound, Costed, Marked};
ghost use Rattle.search.specs.Passes.{Exceeding};

use limits::MOST_ARCS;

#[derive(Debug, Clone, Copy, PartialEq, Eq)]
pub struct Excesses {
    // All excess, that of the arcs from the source.
    pub total: u64,
    // By vertex: the excess of the arc that enters it.
    pub of: [u64; MOST_ARCS + 1],
}

pub fn find_excesses(parents: &[u16], costs: &[u32], marks: &[u16], proposal: &[i64]) -> Excesses
    requires sound { Sound parents.now }
    requires costed { Costed parents.now costs.now }
    requires marked { Marked parents.now marks.now }
    requires proposal_value { proposal_check (member_count (network_of parents.now costs.now marks.now)) proposal.now
        ≡ accepted }
    ensures { Exceeding (network_of parents.now costs.now marks.now)
        proposal.now result.total result.of }
{
    let mut below = [0u64; MOST_ARCS + 1];
    let mut of = [0u64; MOST_ARCS + 1];
    let mut j = proposal.len();
    for i in (0..parents.len()).rev() {
        let mut amount = below[i + 1];
        if marks[i] == 1 {
            j -= 1;
            amount += numbers::plus(proposal[j]);
        }
        let x = amount.saturating_sub(u64::from(costs[i]));
        of[i + 1] = x;
        below[usize::from(parents[i])] += x;
    }
    Excesses {
        total: below[0],
        of,
    }
}
