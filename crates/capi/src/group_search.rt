// The group that overpays most, whatever the total of the proposal is.
ghost use Rattle.std.specs.Prelude.{◌≡◌};
ghost use Rattle.game.specs.Tree.{tree_of};
ghost use Rattle.answers.specs.Audit.{search_answer, search_words};
ghost use Rattle.engine.specs.Outcomes.{search_of};
ghost use Rattle.capi.specs.Structs.{searched_struct, encode_search, decode_search, VerdictUnlessRefused};

use engine::Searched;

// The verdict is 0 in a refusal, 1 where there is no group, 2 where one is found.
// The words are 0 except where a group is found.
#[repr(C)]
#[derive(Clone, Copy, Debug, PartialEq, Eq)]
pub struct ZilqodurSearch {
    pub refusal: u32,
    pub place: usize,
    pub verdict: u32,
    pub amount: u64,
    pub size: usize,
    pub group: [u64; 16],
}

// A search that is not refused.
fn searched(verdict: u32, amount: u64, size: usize, group: [u64; 16]) -> ZilqodurSearch
    ensures { result ≡ searched_struct verdict amount size group }
{
    ZilqodurSearch {
        refusal: 0,
        place: 0,
        verdict,
        amount,
        size,
        group,
    }
}

impl From<Searched> for ZilqodurSearch {
    ghost from_gives = { λ found s. s ≡ encode_search (search_of found.answer) found.group };

    fn from(found: Searched) -> Self {
        let Searched {
            answer,
            group: words,
        } = found;
        match answer {
            Ok(None) => searched(1, 0, 0, words),
            Ok(Some(group)) => searched(2, group.amount, group.size, words),
            Err(refusal) => ZilqodurSearch {
                refusal: refusal.number(),
                place: refusal.place,
                verdict: 0,
                amount: 0,
                size: 0,
                group: words,
            },
        }
    }
}

#[unsafe(no_mangle)]
pub extern "C" fn zilqodur_find_group(
    parents: &[u16],
    costs: &[u32],
    marks: &[u16],
    proposal: &[i64],
) -> ZilqodurSearch
    ensures result_value { decode_search result
        ≡ search_answer (tree_of parents.now costs.now marks.now)
        proposal.now }
    ensures value { result
        ≡ encode_search (decode_search result)
        (search_words (tree_of parents.now costs.now marks.now)
        proposal.now) }
    ensures verdict_unless_refused { VerdictUnlessRefused result.verdict result.refusal }
{
    ZilqodurSearch::from(engine::find_group(parents, costs, marks, proposal))
}
