// The checks of caps with floors: 6 and 7 on caps, 6 and 7 on floors, then 27 at the lowest member whose floor is above
// its cap.
ghost use Rattle.std.specs.Prelude.{◌≡◌, length, ltb};
ghost use Rattle.answer_forms.specs.Answer.{fault};
ghost use Rattle.answers.specs.Level.{floors_check, limits_check};
ghost use Rattle.answer_forms.specs.Checked.{check_of};

use crate::caps::check_caps;
use answer_forms::{Reason, Refusal};

// 27 at member j.
fn check_floor(j: usize, cap: u64, floor: u64) -> Result<(), Refusal>
    ensures { check_of result ≡ fault (ltb cap floor) 27 j }
{
    if cap < floor {
        return Err(Reason::FloorAboveCap.at(j));
    }
    Ok(())
}

// 27 member by member.
fn check_floors(caps: &[u64], floors: &[u64]) -> Result<(), Refusal>
    requires { length floors.now ≡ length caps.now }
    ensures { check_of result
        ≡ floors_check (length caps.now) caps.now floors.now }
{
    for j in 0..caps.len() {
        check_floor(j, caps[j], floors[j])?;
    }
    Ok(())
}

pub fn check_limits(members: usize, caps: &[u64], floors: &[u64]) -> Result<(), Refusal>
    ensures { check_of result ≡ limits_check members caps.now floors.now }
{
    check_caps(members, caps)?;
    check_caps(members, floors)?;
    check_floors(caps, floors)
}
