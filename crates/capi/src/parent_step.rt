// The step through all parent lists of a few arcs.
ghost use Rattle.std.specs.Prelude.{◌≡◌};
ghost use Rattle.answers.specs.ParentLists.{step_answer, step_list};
ghost use Rattle.engine.specs.Outcomes.{step_of};
ghost use Rattle.capi.specs.Structs.{encode_step, decode_step, VerdictUnlessRefused};

use engine::{Refusal, Stepped};

// The verdict is 0 in a refusal, 1 where the list is now the next one, 2 where it was the last one and has stayed.
#[repr(C)]
#[derive(Clone, Copy, Debug, PartialEq, Eq)]
pub struct ZilqodurStep {
    pub refusal: u32,
    pub place: usize,
    pub verdict: u32,
}

impl From<Result<Stepped, Refusal>> for ZilqodurStep {
    ghost from_gives = { λ found s. s ≡ encode_step (step_of found) };

    fn from(found: Result<Stepped, Refusal>) -> Self {
        match found {
            Ok(Stepped::Next) => ZilqodurStep {
                refusal: 0,
                place: 0,
                verdict: 1,
            },
            Ok(Stepped::End) => ZilqodurStep {
                refusal: 0,
                place: 0,
                verdict: 2,
            },
            Err(refusal) => ZilqodurStep {
                refusal: refusal.number(),
                place: refusal.place,
                verdict: 0,
            },
        }
    }
}

#[unsafe(no_mangle)]
pub extern "C" fn zilqodur_next_parents(parents: &mut [u16]) -> ZilqodurStep
    ensures result_value { decode_step result ≡ step_answer parents.old }
    ensures value { result ≡ encode_step (decode_step result) }
    ensures verdict_unless_refused { VerdictUnlessRefused result.verdict result.refusal }
    ensures parents_after { parents.new ≡ step_list parents.old }
{
    ZilqodurStep::from(engine::next_parents(parents))
}
