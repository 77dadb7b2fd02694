// Quotes: their number against that of the events committed.
ghost use Rattle.std.specs.Prelude.{◌≡◌};
ghost use Rattle.answer_forms.specs.Checked.{check_of};
ghost use Rattle.answers.specs.Quotes.{number_check};

use crate::changes::Event;
use answer_forms::{Reason, Refusal};
use limits::MOST_EVENTS;

// An event, and the number of events committed where it was asked for.
#[derive(Clone, Copy, Debug, PartialEq, Eq)]
pub struct Quote {
    pub event: Event,
    pub committed: u32,
}

// 23, then 24, where so many events are committed.
pub fn check_number(quoted: u32, committed: u32) -> Result<(), Refusal>
    ensures { check_of result ≡ number_check quoted committed }
{
    if quoted != committed {
        return Err(Reason::QuoteNumber.at(0));
    }
    if MOST_EVENTS <= committed {
        return Err(Reason::EventCount.at(0));
    }
    Ok(())
}
