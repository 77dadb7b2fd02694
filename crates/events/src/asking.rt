// Asking for an event.
ghost use Rattle.std.specs.Prelude.{◌≡◌};
ghost use Rattle.answers.specs.Quotes.{ask_answer, asked_shares};
ghost use Rattle.events.specs.Outcomes.{state_of, event_of, quote_given_of};

use crate::apply::apply_event;
use crate::changes::Event;
use crate::make::State;
use crate::quotes::Quote;
use answer_forms::Refusal;
use limits::MOST_ARCS;

// The number of members after the event, and the quote.
#[derive(Clone, Copy, Debug, PartialEq, Eq)]
pub struct Quoted {
    pub members: usize,
    pub quote: Quote,
}

// The answer, and beside it the shares after the event; these are 0 in a refusal.
#[derive(Clone, Copy, Debug, PartialEq, Eq)]
pub struct Asked {
    pub answer: Result<Quoted, Refusal>,
    pub shares: [u64; MOST_ARCS],
}

// The checks on the state's tree, then 21, 22, then 17, 18 and 4 on the tree reached.
#[tactic(auto, unfolding(answers::specs::Quotes::ask_answer, answers::specs::Quotes::asked_shares))]
pub fn ask(state: State, event: Event) -> Asked
    ensures answer_value { quote_given_of result.answer ≡ ask_answer (state_of state) (event_of event) }
    ensures shares_value { result.shares ≡ asked_shares (state_of state) (event_of event) }
{
    let committed = state.committed;
    let mut next = state;
    match apply_event(&state, event, committed, &mut next) {
        Ok(members) => {
            let shares = next.shares;
            Asked {
                answer: Ok(Quoted {
                    members,
                    quote: Quote { event, committed },
                }),
                shares,
            }
        }
        Err(refusal) => Asked {
            answer: Err(refusal),
            shares: [0; MOST_ARCS],
        },
    }
}
