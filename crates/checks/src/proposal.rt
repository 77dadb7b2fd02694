// The check of a proposal: 6, then 7 at the lowest share outside its range.
ghost use Rattle.std.specs.Prelude.{◌≡◌};
ghost use Rattle.answer_forms.specs.Answer.{fault};
ghost use Rattle.answers.specs.Checks.{proposal_check, range_check, outside_share};
ghost use Rattle.answer_forms.specs.Checked.{check_of};

use answer_forms::{Reason, Refusal};

// The greatest amount of a share, of either sign.
const MOST_SHARE: i64 = limits::MOST_SHARE as i64;

// 7 at member j.
fn check_share(j: usize, x: i64) -> Result<(), Refusal>
    ensures { check_of result ≡ fault (outside_share x) 7 j }
{
    if x < -MOST_SHARE || MOST_SHARE < x {
        return Err(Reason::ListRange.at(j));
    }
    Ok(())
}

// 7 member by member.
fn check_shares(proposal: &[i64]) -> Result<(), Refusal>
    ensures { check_of result ≡ range_check outside_share 0 proposal.now }
{
    for (j, share) in proposal.iter().enumerate() {
        check_share(j, *share)?;
    }
    Ok(())
}

pub fn check_proposal(members: usize, proposal: &[i64]) -> Result<(), Refusal>
    ensures { check_of result ≡ proposal_check members proposal.now }
{
    if proposal.len() != members {
        return Err(Reason::ListLength.at(0));
    }
    check_shares(proposal)
}
