// The total of a proposal against the whole cost.
ghost use Rattle.std.specs.Prelude.{◌≡◌, cond};
ghost use Rattle.game.specs.Tree.{tree_of};
ghost use Rattle.answers.specs.Audit.{total_answer};
ghost use Rattle.numbers.specs.Signed.{is_zero};
ghost use Rattle.answer_forms.specs.Checked.{answer_of};
ghost use Rattle.capi.specs.Structs.{encode_total, decode_total, VerdictUnlessRefused};

use engine::Refusal;

// The verdict is 0 in a refusal, 1 where the proposal adds up to the whole cost, 2 where it is off.
#[repr(C)]
#[derive(Clone, Copy, Debug, PartialEq, Eq)]
pub struct ZilqodurTotal {
    pub refusal: u32,
    pub place: usize,
    pub verdict: u32,
    pub difference: i64,
}

fn verdict_on(difference: i64) -> u32
    ensures { result ≡ cond (is_zero difference) 1 2 }
{
    if difference == 0 { 1 } else { 2 }
}

impl From<Result<i64, Refusal>> for ZilqodurTotal {
    ghost from_gives = { λ found s. s ≡ encode_total (answer_of found) };

    fn from(found: Result<i64, Refusal>) -> Self {
        match found {
            Ok(difference) => ZilqodurTotal {
                refusal: 0,
                place: 0,
                verdict: verdict_on(difference),
                difference,
            },
            Err(refusal) => ZilqodurTotal {
                refusal: refusal.number(),
                place: refusal.place,
                verdict: 0,
                difference: 0,
            },
        }
    }
}

#[unsafe(no_mangle)]
pub extern "C" fn zilqodur_check_total(
    parents: &[u16],
    costs: &[u32],
    marks: &[u16],
    proposal: &[i64],
) -> ZilqodurTotal
    ensures result_value { decode_total result
        ≡ total_answer (tree_of parents.now costs.now marks.now)
        proposal.now }
    ensures value { result ≡ encode_total (decode_total result) }
    ensures verdict_unless_refused { VerdictUnlessRefused result.verdict result.refusal }
{
    ZilqodurTotal::from(engine::check_total(parents, costs, marks, proposal))
}
