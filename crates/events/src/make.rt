// The state made of a tree.
ghost use Rattle.std.specs.Prelude.{◌≡◌, ◌≤◌, length};
ghost use Rattle.limits.specs.Limits.{most_arcs};
ghost use Rattle.game.specs.Network.{member_count};
ghost use Rattle.game.specs.Tree.{tree_of, network};
ghost use Rattle.answer_forms.specs.Answer.{written};
ghost use Rattle.answer_forms.specs.Checked.{answer_of};
ghost use Rattle.answers.specs.Checks.{tree_check};
ghost use Rattle.answers.specs.Members.{member_count_answer};
ghost use Rattle.answers.specs.States.{padded, no_state, made_state};
ghost use Rattle.events.specs.Outcomes.{state_of};

use answer_forms::Refusal;
use limits::MOST_ARCS;

// A tree, its by-arc shares, and the number of events committed so far. Entry 0 of `shares` is that of member 0, entry
// 0 of the other lists that of arc 1.
#[repr(C)]
#[derive(Clone, Copy, Debug, PartialEq, Eq)]
pub struct State {
    pub arcs: usize,
    pub parents: [u16; MOST_ARCS],
    pub costs: [u32; MOST_ARCS],
    pub marks: [u16; MOST_ARCS],
    pub shares: [u64; MOST_ARCS],
    pub committed: u32,
}

// What an entry gives back: its answer, and the state beside it.
#[derive(Clone, Copy, Debug, PartialEq, Eq)]
pub struct StateAnswer {
    pub answer: Result<usize, Refusal>,
    pub state: State,
}

// 0 throughout.
#[tactic(auto, unfolding(answers::specs::States::padded))]
fn no_state() -> State
    ensures { state_of result ≡ no_state }
{
    State {
        arcs: 0,
        parents: [0; MOST_ARCS],
        costs: [0; MOST_ARCS],
        marks: [0; MOST_ARCS],
        shares: [0; MOST_ARCS],
        committed: 0,
    }
}

// The state of a tree with these shares, and with so many events committed.
fn held(
    parents: &[u16],
    costs: &[u32],
    marks: &[u16],
    shares: [u64; MOST_ARCS],
    committed: u32,
) -> State
    requires parents_len_bound { length parents.now ≤ most_arcs }
    requires costs_len_bound { length costs.now ≤ most_arcs }
    requires marks_len_bound { length marks.now ≤ most_arcs }
    ensures { state_of result
        ≡ record {
          arcs = length parents.now;
          parents = padded parents.now;
          costs = padded costs.now;
          marks = padded marks.now;
          shares = shares;
          committed = committed;
        } }
{
    let mut state = State {
        arcs: parents.len(),
        parents: [0; MOST_ARCS],
        costs: [0; MOST_ARCS],
        marks: [0; MOST_ARCS],
        shares,
        committed,
    };
    state.parents[0..parents.len()].copy_from_slice(parents);
    state.costs[0..costs.len()].copy_from_slice(costs);
    state.marks[0..marks.len()].copy_from_slice(marks);
    state
}

// Writes the state made of a tree with this number of members, with so many events committed. The tree's refusals.
pub fn split_into_state(
    parents: &[u16],
    costs: &[u32],
    marks: &[u16],
    members: usize,
    committed: u32,
    out: &mut State,
) -> Result<usize, Refusal>
    requires members_value { members ≡ member_count (network (tree_of parents.now costs.now marks.now)) }
    requires members_le_most_arcs { members ≤ most_arcs }
    ensures answer_value { answer_of result ≡ member_count_answer (tree_of parents.now costs.now marks.now) }
    ensures state_value { state_of out.new ≡ written (tree_check (tree_of parents.now costs.now marks.now))
        (state_of out.old) (made_state (tree_of parents.now costs.now marks.now) committed) }
{
    let mut shares = [0; MOST_ARCS];
    engine::split_by_arc(parents, costs, marks, &mut shares[0..members])?;
    *out = held(parents, costs, marks, shares, committed);
    Ok(members)
}

// The tree's refusals.
pub fn make_state(parents: &[u16], costs: &[u32], marks: &[u16]) -> StateAnswer
    ensures answer_value { answer_of result.answer
        ≡ member_count_answer (tree_of parents.now costs.now marks.now) }
    ensures state_value { state_of result.state
        ≡ made_state (tree_of parents.now costs.now marks.now) 0 }
{
    let counted = engine::count_members(parents, costs, marks);
    let Ok(members) = counted else {
        return StateAnswer {
            answer: counted,
            state: no_state(),
        };
    };
    let mut shares = [0; MOST_ARCS];
    let answer = engine::split_by_arc(parents, costs, marks, &mut shares[0..members]);
    let Ok(_) = answer else {
        return StateAnswer {
            answer,
            state: no_state(),
        };
    };
    // Put together where it is answered: a state lent for it would be copied.
    StateAnswer {
        answer,
        state: held(parents, costs, marks, shares, 0),
    }
}
