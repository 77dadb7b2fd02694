// The checks of a branch's arc.
ghost use Rattle.std.specs.Prelude.{◌≡◌, not, ltb};
ghost use Rattle.answer_forms.specs.Answer.{fault};
ghost use Rattle.answer_forms.specs.Checked.{check_of};
ghost use Rattle.answers.specs.Margin.{leaves_source};

use answer_forms::{Reason, Refusal};

// 25: the arc is one that leaves the source.
pub fn check_branch_arc(parents: &[u16], arc: usize) -> Result<(), Refusal>
    ensures { check_of result ≡ fault (not (leaves_source parents.now arc)) 25 arc }
{
    if arc == 0 || parents.len() < arc {
        return Err(Reason::BranchArc.at(arc));
    }
    if parents[arc - 1] == 0 {
        Ok(())
    } else {
        Err(Reason::BranchArc.at(arc))
    }
}

// 26: the arc has two users or more.
pub fn check_branch_users(users: usize, arc: usize) -> Result<(), Refusal>
    ensures { check_of result ≡ fault (ltb users 2) 26 arc }
{
    if users < 2 {
        Err(Reason::BranchUsers.at(arc))
    } else {
        Ok(())
    }
}
