// The check of the caps: 6, then 7 at the lowest cap above the limit.
ghost use Rattle.std.specs.Prelude.{◌≡◌};
ghost use Rattle.answer_forms.specs.Answer.{fault};
ghost use Rattle.answers.specs.Checks.{range_check};
ghost use Rattle.answers.specs.Level.{outside_cap, caps_check};
ghost use Rattle.answer_forms.specs.Checked.{check_of};

use answer_forms::{Reason, Refusal};
use limits::MOST_SHARE;

// 7 at member j.
fn check_cap(j: usize, cap: u64) -> Result<(), Refusal>
    ensures { check_of result ≡ fault (outside_cap cap) 7 j }
{
    if MOST_SHARE < cap {
        return Err(Reason::ListRange.at(j));
    }
    Ok(())
}

// 7 member by member.
fn check_each(caps: &[u64]) -> Result<(), Refusal>
    ensures { check_of result ≡ range_check outside_cap 0 caps.now }
{
    for (j, cap) in caps.iter().enumerate() {
        check_cap(j, *cap)?;
    }
    Ok(())
}

pub fn check_caps(members: usize, caps: &[u64]) -> Result<(), Refusal>
    ensures { check_of result ≡ caps_check members caps.now }
{
    if caps.len() != members {
        return Err(Reason::ListLength.at(0));
    }
    check_each(caps)
}
