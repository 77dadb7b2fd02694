// Asking for an event, and committing its quote.
ghost use Rattle.std.specs.Prelude.{◌≡◌};
ghost use Rattle.answers.specs.Quotes.{ask_answer, asked_shares, commit_answer, committed_state};
ghost use Rattle.events.specs.Outcomes.{state_of, change_of, quote_of, quote_given_of};
ghost use Rattle.capi.specs.Structs.{event_by, encode_event, encode_quote, quote_by, encode_asked, decode_asked};
ghost use Rattle.capi.specs.Structs.{encode_state, decode_state};

use crate::states::{ZilqodurEvent, ZilqodurStateAnswer};
use events::{Asked, Change, Event, Quote, State};
use limits::MOST_ARCS;

#[repr(C)]
#[derive(Clone, Copy, Debug, PartialEq, Eq)]
pub struct ZilqodurQuote {
    pub event: ZilqodurEvent,
    pub committed: u32,
}

#[repr(C)]
#[derive(Clone, Copy, Debug, PartialEq, Eq)]
pub struct ZilqodurQuoteAnswer {
    pub refusal: u32,
    pub place: usize,
    pub members: usize,
    pub quote: ZilqodurQuote,
    pub shares: [u64; MOST_ARCS],
}

fn encode_event(vertex: usize, change: Change) -> ZilqodurEvent
    ensures { result ≡ encode_event vertex (change_of change) }
{
    match change {
        Change::Arrive => ZilqodurEvent {
            vertex,
            kind: 0,
            amount: 0,
        },
        Change::Leave => ZilqodurEvent {
            vertex,
            kind: 1,
            amount: 0,
        },
        Change::NewCost(amount) => ZilqodurEvent {
            vertex,
            kind: 2,
            amount,
        },
    }
}

impl From<Quote> for ZilqodurQuote {
    ghost from_gives = { λ quote s. s ≡ encode_quote (quote_of quote) };

    fn from(quote: Quote) -> Self {
        ZilqodurQuote {
            event: encode_event(quote.event.vertex, quote.event.change),
            committed: quote.committed,
        }
    }
}

impl From<ZilqodurQuote> for Quote {
    ghost from_gives = { λ told quote. quote_of quote ≡ quote_by told };

    fn from(told: ZilqodurQuote) -> Self {
        Quote {
            event: Event::from(told.event),
            committed: told.committed,
        }
    }
}

impl From<Asked> for ZilqodurQuoteAnswer {
    ghost from_gives = { λ asked s. s ≡ encode_asked (quote_given_of asked.answer) asked.shares };

    fn from(asked: Asked) -> Self {
        let Asked { answer, shares } = asked;
        match answer {
            Ok(quoted) => ZilqodurQuoteAnswer {
                refusal: 0,
                place: 0,
                members: quoted.members,
                quote: ZilqodurQuote::from(quoted.quote),
                shares,
            },
            Err(refusal) => ZilqodurQuoteAnswer {
                refusal: refusal.number(),
                place: refusal.place,
                members: 0,
                quote: ZilqodurQuote {
                    event: ZilqodurEvent {
                        vertex: 0,
                        kind: 0,
                        amount: 0,
                    },
                    committed: 0,
                },
                shares,
            },
        }
    }
}

#[unsafe(no_mangle)]
pub extern "C" fn zilqodur_ask(state: State, event: ZilqodurEvent) -> ZilqodurQuoteAnswer
    ensures result_value { decode_asked result ≡ ask_answer (state_of state) (event_by event) }
    ensures value { result ≡ encode_asked (decode_asked result) result.shares }
    ensures shares_value { result.shares ≡ asked_shares (state_of state) (event_by event) }
{
    ZilqodurQuoteAnswer::from(events::ask(state, Event::from(event)))
}

#[unsafe(no_mangle)]
pub extern "C" fn zilqodur_commit(state: State, quote: ZilqodurQuote) -> ZilqodurStateAnswer
    ensures result_value { decode_state result ≡ commit_answer (state_of state) (quote_by quote) }
    ensures value { result ≡ encode_state (decode_state result) result.state }
    ensures state_value { state_of result.state ≡ committed_state (state_of state) (quote_by quote) }
{
    ZilqodurStateAnswer::from(events::commit(state, Quote::from(quote)))
}
