// Committing a quote.
ghost use Rattle.std.specs.Prelude.{◌≡◌, suc};
ghost use Rattle.answer_forms.specs.Checked.{answer_of};
ghost use Rattle.answer_forms.specs.Answer.{written};
ghost use Rattle.answers.specs.Events.{reached};
ghost use Rattle.answers.specs.Quotes.{commit_check, commit_answer, committed_state};
ghost use Rattle.answers.specs.States.{made_state, tree_in};
ghost use Rattle.events.specs.Outcomes.{state_of, event_of, quote_of};

use crate::apply::apply_event;
use crate::make::{State, StateAnswer};
use crate::quotes::{Quote, check_number};
use answer_forms::Refusal;

// Writes the state with the quote's event carried out. 23, then 24, then the refusals of asking for the event.
#[tactic(auto, unfolding(answers::specs::Quotes::commit_check, answers::specs::Quotes::commit_answer))]
fn carry_out_quote(state: &State, quote: Quote, out: &mut State) -> Result<usize, Refusal>
    ensures answer_value { answer_of result ≡ commit_answer (state_of state.now) (quote_of quote) }
    ensures state_value { state_of out.new ≡ written (commit_check (state_of state.now) (quote_of quote))
        (state_of out.old) (made_state (reached (tree_in (state_of state.now)) (event_of quote.event)) (suc state.now.committed)) }
{
    check_number(quote.committed, state.committed)?;
    apply_event(state, quote.event, state.committed + 1, out)
}

// A refused commit gives back the state as it came.
#[tactic(auto, unfolding(answers::specs::Quotes::committed_state))]
pub fn commit(state: State, quote: Quote) -> StateAnswer
    ensures answer_value { answer_of result.answer ≡ commit_answer (state_of state) (quote_of quote) }
    ensures state_value { state_of result.state ≡ committed_state (state_of state) (quote_of quote) }
{
    // The answer's own state is lent: beside it, its 16,392 bytes would be copied once more.
    let mut next = StateAnswer {
        answer: Ok(0),
        state,
    };
    next.answer = carry_out_quote(&state, quote, &mut next.state);
    next
}
