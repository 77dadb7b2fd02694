// The check of a parent list by itself, for the step through all of them: 31, then 3 arc by arc.
ghost use Rattle.std.specs.Prelude.{◌≡◌, length};
ghost use Rattle.answers.specs.Checks.{small_check, one_by_one, parent_check};
ghost use Rattle.answer_forms.specs.Checked.{check_of};

use crate::arc::{check_count, check_parent};
use answer_forms::{Reason, Refusal};
use limits::MOST_SMALL_ARCS;

// 3 arc by arc.
fn check_parents(parents: &[u16]) -> Result<(), Refusal>
    ensures { check_of result ≡ one_by_one (parent_check parents.now) (length parents.now) }
{
    for (i, parent) in parents.iter().enumerate() {
        check_parent(i + 1, *parent)?;
    }
    Ok(())
}

#[tactic(auto, unfolding(answers::specs::Checks::small_check))]
pub fn check_small(parents: &[u16]) -> Result<(), Refusal>
    ensures { check_of result ≡ small_check parents.now }
{
    check_count(parents.len(), MOST_SMALL_ARCS, Reason::SmallArcCount)?;
    check_parents(parents)
}
