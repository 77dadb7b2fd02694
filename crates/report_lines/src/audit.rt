// The lines of the audit: its total, and the members of the group that overpays most.
ghost use Rattle.std.specs.Prelude.{cond, [], ◌+◌, ◌*◌, ◌%◌, ◌≤◌, length};
ghost use Rattle.basics.specs.Bit.{digit};
ghost use Rattle.answer_forms.specs.Answer.{value};
ghost use Rattle.answer_forms.specs.Checked.{answer_of};
ghost use Rattle.engine.specs.Outcomes.{search_of};
ghost use Rattle.buffer.specs.Put.{Put};
ghost use Rattle.report_lines.specs.Lines.{labelled, group_text, group_line, total_text, search_text, audit_text};
ghost use Rattle.limits.specs.Limits.{most_arcs, group_bits};

use crate::line::put_refused;
use engine::{Refusal, Searched};

// A space and the number where the member's bit in its word is set.
fn put_if(out: &mut [u8], at: usize, word: u64, j: usize) -> usize
    requires { at + 21 ≤ length out.old }
    ensures put { Put out.old at (cond (digit word (j % 64)) (labelled " " j) []) out.new result }
    ensures upper_bound { result ≤ at + 21 }
{
    if numbers::bit_of(word, j % 64) {
        text::put_labelled(out, at, b" ", j as u64)
    } else {
        at
    }
}

// The group's members below a number.
fn put_group(out: &mut [u8], at: usize, words: [u64; 16], members: usize) -> usize
    requires members_le_group_bits { members ≤ group_bits }
    requires members_in_bounds { at + 21 * members ≤ length out.old }
    ensures put { Put out.old at (group_text words members) out.new result }
    ensures upper_bound { result ≤ at + 21 * members }
{
    let mut next = at;
    for j in 0..members {
        next = put_if(out, next, words[j / 64], j);
    }
    next
}

fn put_group_line(
    out: &mut [u8],
    at: usize,
    amount: u64,
    size: usize,
    words: [u64; 16],
    members: usize,
) -> usize
    requires members_le_most_arcs { members ≤ most_arcs }
    requires at_in_bounds { at + 21900 ≤ length out.old }
    ensures put { Put out.old at (group_line amount size words members) out.new result }
    ensures upper_bound { result ≤ at + 21900 }
{
    let a = text::put_labelled(out, at, b"audit group ", amount);
    let b = text::put_labelled(out, a, b" of ", size as u64);
    let c = buffer::put(out, b, b":");
    let d = put_group(out, c, words, members);
    buffer::put(out, d, b"\n")
}

// The total where it is off.
fn put_difference(out: &mut [u8], at: usize, difference: i64) -> usize
    requires { at + 100 ≤ length out.old }
    ensures put { Put out.old at (total_text (value difference)) out.new result }
    ensures upper_bound { result ≤ at + 100 }
{
    if difference == 0 {
        return at;
    }
    let a = text::put_labelled_signed(out, at, b"audit total ", difference);
    buffer::put(out, a, b"\n")
}

fn put_total(out: &mut [u8], at: usize, total: Result<i64, Refusal>) -> usize
    requires { at + 100 ≤ length out.old }
    ensures put { Put out.old at (total_text (answer_of «total»)) out.new result }
    ensures upper_bound { result ≤ at + 100 }
{
    match total {
        Ok(difference) => put_difference(out, at, difference),
        Err(refusal) => put_refused(out, at, refusal),
    }
}

// The group where one is found.
fn put_search(out: &mut [u8], at: usize, members: usize, searched: Searched) -> usize
    requires members_le_most_arcs { members ≤ most_arcs }
    requires at_in_bounds { at + 21900 ≤ length out.old }
    ensures put { Put out.old at
        (search_text members (search_of searched.answer) searched.group) out.new result }
    ensures upper_bound { result ≤ at + 21900 }
{
    match searched.answer {
        Ok(Some(found)) => put_group_line(
            out,
            at,
            found.amount,
            found.size,
            searched.group,
            members,
        ),
        Ok(None) => at,
        Err(refusal) => put_refused(out, at, refusal),
    }
}

// The lines have room in 22,000 bytes.
pub fn put_audit(
    out: &mut [u8],
    at: usize,
    members: usize,
    total: Result<i64, Refusal>,
    searched: Searched,
) -> usize
    requires members_le_most_arcs { members ≤ most_arcs }
    requires at_in_bounds { at + 22000 ≤ length out.old }
    ensures put { Put out.old at
        (audit_text members (answer_of «total») (search_of searched.answer) searched.group) out.new result }
    ensures upper_bound { result ≤ at + 22000 }
{
    let a = put_total(out, at, total);
    let b = put_search(out, a, members, searched);
    if b == at {
        return buffer::put(out, at, b"audit pass\n");
    }
    b
}
