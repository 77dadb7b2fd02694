// An event carried out on a state.
ghost use Rattle.std.specs.Prelude.{◌≡◌, ◌<◌, ◌≤◌};
ghost use Rattle.limits.specs.Limits.{most_arcs};
ghost use Rattle.game.specs.Network.{member_count};
ghost use Rattle.game.specs.Tree.{tree_of, network};
ghost use Rattle.answer_forms.specs.Answer.{answer, written};
ghost use Rattle.answer_forms.specs.Checked.{answer_of};
ghost use Rattle.answers.specs.Checks.{tree_check};
ghost use Rattle.answers.specs.Members.{member_count_answer};
ghost use Rattle.answers.specs.States.{made_state, tree_in};
ghost use Rattle.answers.specs.Events.{changed_at, reached, apply_check};
ghost use Rattle.events.specs.Outcomes.{state_of, change_of, event_of};

use crate::changes::{Change, Event};
use crate::make::{State, split_into_state};
use answer_forms::{Reason, Refusal};
use limits::MOST_ARCS;

// The state with the change made at the event's vertex. Out of line, so that its copies are gone
// from the stack when the shares are split.
#[inline(never)]
fn changed(state: &State, event: Event) -> State
    requires vertex_nonzero { 0 < event.vertex }
    requires vertex_le_most_arcs { event.vertex ≤ most_arcs }
    ensures arcs_value { result.arcs ≡ state.now.arcs }
    ensures marks_value { tree_of result.parents result.costs result.marks
        ≡ changed_at (tree_of state.now.parents state.now.costs state.now.marks) event.vertex (change_of event.change) }
{
    let mut next = *state;
    let arc = event.vertex - 1;
    match event.change {
        Change::Arrive => next.marks[arc] = 1,
        Change::Leave => next.marks[arc] = 0,
        Change::NewCost(amount) => next.costs[arc] = amount,
    }
    next
}

// Writes the state made of the tree of `next`, which has this number of members, with so many events committed. The
// tree's refusals.
fn carry_out(
    next: &State,
    members: usize,
    committed: u32,
    out: &mut State,
) -> Result<usize, Refusal>
    requires arcs_le_most_arcs { next.now.arcs ≤ most_arcs }
    requires members_value { members ≡ member_count (network (tree_in (state_of next.now))) }
    requires members_le_most_arcs { members ≤ most_arcs }
    ensures answer_value { answer_of result ≡ member_count_answer (tree_in (state_of next.now)) }
    ensures state_value { state_of out.new ≡ written (tree_check (tree_in (state_of next.now))) (state_of out.old)
        (made_state (tree_in (state_of next.now)) committed) }
{
    let m = next.arcs;
    split_into_state(
        &next.parents[0..m],
        &next.costs[0..m],
        &next.marks[0..m],
        members,
        committed,
        out,
    )
}

// Writes the state made of the tree that the event reaches, with so many events committed. The checks on the state's
// tree, then 21, 22, then 17, 18 and 4 on the tree reached.
pub fn apply_event(
    state: &State,
    event: Event,
    committed: u32,
    out: &mut State,
) -> Result<usize, Refusal>
    ensures answer_value { answer_of result ≡ answer (apply_check (state_of state.now) (event_of event))
        (member_count (network (reached (tree_in (state_of state.now)) (event_of event)))) }
    ensures state_value { state_of out.new ≡ written (apply_check (state_of state.now) (event_of event))
        (state_of out.old) (made_state (reached (tree_in (state_of state.now)) (event_of event)) committed) }
{
    let m = state.arcs;
    if MOST_ARCS < m {
        return Err(Reason::ArcCount.at(0));
    }
    let marks = &state.marks[0..m];
    let members = engine::count_members(&state.parents[0..m], &state.costs[0..m], marks)?;
    event.check(marks)?;
    let next = changed(state, event);
    carry_out(&next, event.change.members_after(members), committed, out)
}
