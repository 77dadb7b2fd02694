// States and events. A state is the one of `events` itself; an event tells its change by a number and an amount.
ghost use Rattle.std.specs.Prelude.{◌≡◌};
ghost use Rattle.game.specs.Tree.{tree_of};
ghost use Rattle.answers.specs.Members.{member_count_answer};
ghost use Rattle.answers.specs.States.{made_state};
ghost use Rattle.answer_forms.specs.Checked.{answer_of};
ghost use Rattle.events.specs.Outcomes.{state_of, change_of, event_of};
ghost use Rattle.capi.specs.Structs.{encode_state, decode_state, change_by, event_by};

use crate::members::ZilqodurMembers;
use events::{Change, Event, State, StateAnswer};

// `kind` is 0 for arrive and 1 for leave; every other number is a new cost, which alone looks at `amount`.
#[repr(C)]
#[derive(Clone, Copy, Debug, PartialEq, Eq)]
pub struct ZilqodurEvent {
    pub vertex: usize,
    pub kind: u32,
    pub amount: u32,
}

#[repr(C)]
#[derive(Clone, Copy, Debug, PartialEq, Eq)]
pub struct ZilqodurStateAnswer {
    pub refusal: u32,
    pub place: usize,
    pub members: usize,
    pub state: State,
}

fn change_by(kind: u32, amount: u32) -> Change
    ensures { change_of result ≡ change_by kind amount }
{
    match kind {
        0 => Change::Arrive,
        1 => Change::Leave,
        _ => Change::NewCost(amount),
    }
}

impl From<ZilqodurEvent> for Event {
    ghost from_gives = { λ told event. event_of event ≡ event_by told };

    fn from(told: ZilqodurEvent) -> Self {
        Event {
            vertex: told.vertex,
            change: change_by(told.kind, told.amount),
        }
    }
}

impl From<StateAnswer> for ZilqodurStateAnswer {
    ghost from_gives = { λ found s. s ≡ encode_state (answer_of found.answer) found.state };

    fn from(found: StateAnswer) -> Self {
        // One struct for both cases: a state is copied once more where each case puts its own together.
        let told = ZilqodurMembers::from(found.answer);
        ZilqodurStateAnswer {
            refusal: told.refusal,
            place: told.place,
            members: told.members,
            state: found.state,
        }
    }
}

#[unsafe(no_mangle)]
pub extern "C" fn zilqodur_make_state(
    parents: &[u16],
    costs: &[u32],
    marks: &[u16],
) -> ZilqodurStateAnswer
    ensures result_value { decode_state result
        ≡ member_count_answer (tree_of parents.now costs.now marks.now) }
    ensures value { result ≡ encode_state (decode_state result) result.state }
    ensures state_value { state_of result.state
        ≡ made_state (tree_of parents.now costs.now marks.now) 0 }
{
    ZilqodurStateAnswer::from(events::make_state(parents, costs, marks))
}
