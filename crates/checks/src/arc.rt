// What is checked of a tree's arcs, whatever its marks: their number, and each one's parent and cost.
ghost use Rattle.std.specs.Prelude.{◌≡◌, ◌||◌, eqb, ltb, leb};
ghost use Rattle.limits.specs.Limits.{most_cost};
ghost use Rattle.answer_forms.specs.Answer.{fault, ◌then◌};
ghost use Rattle.answer_forms.specs.Checked.{check_of};
ghost use Rattle.answer_forms.specs.Reasons.{number_of};

use answer_forms::{Reason, Refusal};
use limits::MOST_COST;

// Refused where there is no arc, or more than so many.
pub fn check_count(arcs: usize, most: usize, reason: Reason) -> Result<(), Refusal>
    ensures { check_of result ≡ fault (eqb arcs 0 || ltb most arcs) (number_of reason) 0 }
{
    if arcs == 0 || most < arcs {
        return Err(reason.at(0));
    }
    Ok(())
}

// 3 at arc k.
pub fn check_parent(k: usize, parent: u16) -> Result<(), Refusal>
    ensures { check_of result ≡ fault (leb k parent) 3 k }
{
    if k <= parent as usize {
        return Err(Reason::Parent.at(k));
    }
    Ok(())
}

// 3 and 4 at arc k.
pub fn check_arc(k: usize, parent: u16, cost: u32) -> Result<(), Refusal>
    ensures { check_of result ≡ (fault (leb k parent) 3 k then fault (ltb most_cost cost) 4 k) }
{
    check_parent(k, parent)?;
    if MOST_COST < cost {
        return Err(Reason::Cost.at(k));
    }
    Ok(())
}
