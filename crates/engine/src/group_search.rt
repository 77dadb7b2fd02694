// The group that overpays most, whatever the total of the proposal is.
ghost use Rattle.std.specs.Prelude.{◌≡◌, replicate};
ghost use Rattle.game.specs.Network.{member_count};
ghost use Rattle.game.specs.Tree.{tree_of, network_of};
ghost use Rattle.game.specs.Group.{words_of};
ghost use Rattle.game.specs.Search.{is_in, named};
ghost use Rattle.answer_forms.specs.Answer.{accepted, value};
ghost use Rattle.answers.specs.Checks.{proposal_check};
ghost use Rattle.answers.specs.Audit.{search_verdict, words_beside, search_answer, search_words};
ghost use Rattle.tree.specs.Passes.{Sound, Costed, Marked};
ghost use Rattle.engine.specs.Outcomes.{search_of};

use crate::proposed::check_proposed;
use answer_forms::Refusal;
use limits::MOST_ARCS;

// The greatest overpayment of a group, and the size of the group.
#[derive(Clone, Copy, Debug, PartialEq, Eq)]
pub struct GroupFound {
    pub amount: u64,
    pub size: usize,
}

// The answer, and beside it the group that is found; the words are 0 in every other answer.
#[derive(Clone, Copy, Debug, PartialEq, Eq)]
pub struct Searched {
    pub answer: Result<Option<GroupFound>, Refusal>,
    pub group: [u64; 16],
}

fn without_group(answer: Result<Option<GroupFound>, Refusal>) -> Searched
    ensures answer_value { result.answer ≡ answer }
    ensures group_value { result.group ≡ replicate 16 0 }
{
    Searched {
        answer,
        group: [0; 16],
    }
}

// The tree and the proposal are accepted.
fn search_in_tree(parents: &[u16], costs: &[u32], marks: &[u16], proposal: &[i64]) -> Searched
    requires sound { Sound parents.now }
    requires costed { Costed parents.now costs.now }
    requires marked { Marked parents.now marks.now }
    requires proposal_value { proposal_check (member_count (network_of parents.now costs.now marks.now)) proposal.now
        ≡ accepted }
    ensures answer_value { let n = network_of parents.now costs.now marks.now in
        search_of result.answer ≡ value (search_verdict n proposal.now) }
    ensures group_value { let n = network_of parents.now costs.now marks.now in
        result.group ≡ words_beside (search_of result.answer) (words_of (is_in (named n proposal.now))) }
{
    let found = search::search(parents, costs, marks, proposal);
    let amount = found.amount;
    let group = found.group;
    if amount == 0 {
        return without_group(Ok(None));
    }
    let size = bits::size_of(group);
    Searched {
        answer: Ok(Some(GroupFound { amount, size })),
        group,
    }
}

// The tree's refusals, then 6 and 7.
#[tactic(auto, unfolding(answers::specs::Audit::search_answer, answers::specs::Audit::search_words))]
pub fn find_group(parents: &[u16], costs: &[u32], marks: &[u16], proposal: &[i64]) -> Searched
    ensures answer_value { search_of result.answer
        ≡ search_answer (tree_of parents.now costs.now marks.now)
        proposal.now }
    ensures group_value { result.group
        ≡ search_words (tree_of parents.now costs.now marks.now)
        proposal.now }
{
    match check_proposed(parents, costs, marks, proposal) {
        Ok(()) => {
            let m = parents.len();
            let mut counted = [0u32; MOST_ARCS];
            tree::write_counted(parents, costs, marks, &mut counted[0..m]);
            search_in_tree(parents, &counted[0..m], marks, proposal)
        }
        Err(refusal) => without_group(Err(refusal)),
    }
}
