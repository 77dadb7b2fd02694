// The lines of a few numbers. Each has room in 100 bytes.
ghost use Rattle.std.specs.Prelude.{◌+◌, ◌≤◌, length};
ghost use Rattle.answer_forms.specs.Reasons.{number_of};
ghost use Rattle.engine.specs.Outcomes.{needs_of};
ghost use Rattle.engine.specs.Outcomes.{level_of};
ghost use Rattle.buffer.specs.Put.{Put};
ghost use Rattle.report_lines.specs.Lines.{refused_line, cost_line, level_line};
ghost use Rattle.report_lines.specs.Inner.{needs_line};

use engine::{LevelRefusal, NeedsFound, Refusal};

pub fn put_refused(out: &mut [u8], at: usize, refusal: Refusal) -> usize
    requires { at + 100 ≤ length out.old }
    ensures put { Put out.old at (refused_line (number_of refusal.reason) refusal.place) out.new result }
    ensures upper_bound { result ≤ at + 100 }
{
    let a = text::put_labelled(out, at, b"refused ", u64::from(refusal.number()));
    let b = text::put_labelled(out, a, b" at ", refusal.place as u64);
    buffer::put(out, b, b"\n")
}

fn put_cost(out: &mut [u8], at: usize, whole: u64, members: usize) -> usize
    requires { at + 100 ≤ length out.old }
    ensures put { Put out.old at (cost_line whole members) out.new result }
    ensures upper_bound { result ≤ at + 100 }
{
    let a = text::put_labelled(out, at, b"cost ", whole);
    let b = text::put_labelled(out, a, b" members ", members as u64);
    buffer::put(out, b, b"\n")
}

pub fn put_needs(out: &mut [u8], at: usize, found: Result<NeedsFound, Refusal>) -> usize
    requires { at + 100 ≤ length out.old }
    ensures put { Put out.old at (needs_line (needs_of «found»)) out.new result }
    ensures upper_bound { result ≤ at + 100 }
{
    match found {
        Ok(needs) => put_cost(out, at, needs.whole, needs.members),
        Err(refusal) => put_refused(out, at, refusal),
    }
}

fn put_short(out: &mut [u8], at: usize, found: LevelRefusal) -> usize
    requires { at + 100 ≤ length out.old }
    ensures put { Put out.old at (level_line (level_of (Err «found»))) out.new result }
    ensures upper_bound { result ≤ at + 100 }
{
    let refusal = found.refusal;
    let a = text::put_labelled(out, at, b"level refused ", u64::from(refusal.number()));
    let b = text::put_labelled(out, a, b" at ", refusal.place as u64);
    let c = text::put_labelled(out, b, b" short ", found.shortfall);
    buffer::put(out, c, b"\n")
}

pub fn put_level(out: &mut [u8], at: usize, level: Result<usize, LevelRefusal>) -> usize
    requires { at + 100 ≤ length out.old }
    ensures put { Put out.old at (level_line (level_of «level»)) out.new result }
    ensures upper_bound { result ≤ at + 100 }
{
    match level {
        Ok(_) => buffer::put(out, at, b"level ok\n"),
        Err(found) => put_short(out, at, found),
    }
}
