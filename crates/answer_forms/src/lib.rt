// The form of a refusal, and so of every check's answer: nothing, or the first refusal.
#![tactic(auto)]

mod reason;

ghost use Rattle.std.specs.Prelude.{◌≡◌};
ghost use Rattle.answer_forms.specs.Reasons.{number_of};

pub use reason::Reason;
use std::error::Error;
use std::fmt;

// A refusal: why, and the place where the fault stands.
#[derive(Clone, Copy, Debug, PartialEq, Eq)]
pub struct Refusal {
    pub reason: Reason,
    pub place: usize,
}

impl Refusal {
    // The number of the reason.
    pub fn number(self) -> u32
        ensures { result ≡ number_of self.reason }
    {
        u32::from(self.reason)
    }
}

impl fmt::Display for Refusal {
    fn fmt<W: fmt::Write>(&self, f: &mut fmt::Formatter<W>) -> fmt::Result {
        write!(f, "{} at {}", self.number(), self.place)
    }
}

impl Error for Refusal {}
