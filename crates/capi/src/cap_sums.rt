// The running sums of caps.
ghost use Rattle.std.specs.Prelude.{◌≡◌};
ghost use Rattle.game.specs.Tree.{tree_of};
ghost use Rattle.answers.specs.CapSums.{cap_sums_answer, cap_sums_list};
ghost use Rattle.answer_forms.specs.Checked.{answer_of};
ghost use Rattle.capi.specs.Structs.{encode_cap_sums, decode_cap_sums};

use engine::Refusal;

#[repr(C)]
#[derive(Clone, Copy, Debug, PartialEq, Eq)]
pub struct ZilqodurCapSums {
    pub refusal: u32,
    pub place: usize,
    pub total: u64,
}

impl From<Result<u64, Refusal>> for ZilqodurCapSums {
    ghost from_gives = { λ found s. s ≡ encode_cap_sums (answer_of found) };

    fn from(found: Result<u64, Refusal>) -> Self {
        match found {
            Ok(total) => ZilqodurCapSums {
                refusal: 0,
                place: 0,
                total,
            },
            Err(refusal) => ZilqodurCapSums {
                refusal: refusal.number(),
                place: refusal.place,
                total: 0,
            },
        }
    }
}

#[unsafe(no_mangle)]
pub extern "C" fn zilqodur_list_cap_sums(
    parents: &[u16],
    costs: &[u32],
    marks: &[u16],
    caps: &[u64],
    out: &mut [u64],
) -> ZilqodurCapSums
    ensures result_value { decode_cap_sums result
        ≡ cap_sums_answer (tree_of parents.now costs.now marks.now)
        caps.now out.old }
    ensures value { result ≡ encode_cap_sums (decode_cap_sums result) }
    ensures out_after { out.new
        ≡ cap_sums_list (tree_of parents.now costs.now marks.now)
        caps.now out.old }
{
    ZilqodurCapSums::from(engine::list_cap_sums(parents, costs, marks, caps, out))
}
