// What is checked of a tree's marks.
ghost use Rattle.std.specs.Prelude.{◌≡◌, ◌&&◌, not, length, eqb, ltb};
ghost use Rattle.basics.specs.Sum.{some};
ghost use Rattle.game.specs.Tree.{marked};
ghost use Rattle.answer_forms.specs.Answer.{fault, ◌then◌};
ghost use Rattle.answer_forms.specs.Checked.{check_of};

use answer_forms::{Reason, Refusal};

// 17 at vertex k.
fn check_end(k: usize, mark: u16, has_child: bool) -> Result<(), Refusal>
    ensures { check_of result ≡ fault (eqb mark 1 && has_child) 17 k }
{
    if mark != 1 {
        return Ok(());
    }
    if has_child {
        return Err(Reason::MarkChild.at(k));
    }
    Ok(())
}

// 16 and 17 at vertex k.
pub fn check_mark(k: usize, mark: u16, has_child: bool) -> Result<(), Refusal>
    ensures { check_of result ≡ (fault (ltb 1 mark) 16 k then fault (eqb mark 1 && has_child) 17 k) }
{
    if 1 < mark {
        return Err(Reason::Mark.at(k));
    }
    check_end(k, mark, has_child)
}

// 18.
pub fn check_someone(marks: &[u16]) -> Result<(), Refusal>
    ensures { check_of result
        ≡ fault (not (some (length marks.now) (marked marks.now))) 18 0 }
{
    if marks.contains(&1) {
        Ok(())
    } else {
        Err(Reason::NoMark.at(0))
    }
}
