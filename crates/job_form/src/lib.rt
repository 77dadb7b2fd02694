// The form of a job in a version: its size, its signature, its layout, and its fillers, which in version 2 are marks.
// Each check's answer is opened by let else, the form that document 01 names for the reader.
#![tactic(auto)]

ghost use Rattle.std.specs.Prelude.{◌≡◌, not, ◌+◌, ◌*◌, ◌≤◌, length, eqb, ltb};
ghost use Rattle.answer_forms.specs.Answer.{fault};
ghost use Rattle.answer_forms.specs.Checked.{check_of};
ghost use Rattle.job_form.specs.Inner.{Layout};
ghost use Rattle.job_form.specs.Form.{most_bytes_of, size_check, signature_check, layout_check, form_check};
ghost use Rattle.job_form.specs.Form.{filler_check, fillers_from, fillers_check};

use answer_forms::{Reason, Refusal};
use job_bytes::{Trailer, Version, number_at};

const FEWEST_BYTES: usize = 16;

pub const LONGEST_NOTE: usize = 255;

// The length of the longest job.
#[tactic(auto, unfolding(crate::specs::Form::most_bytes_of))]
fn most_bytes(version: Version) -> usize
    ensures { result ≡ most_bytes_of version }
{
    match version {
        Version::One => 24_823,
        Version::Two => 33_007,
    }
}

// 11.
fn check_size(version: Version, size: usize) -> Result<(), Refusal>
    ensures { check_of result ≡ size_check version size }
{
    if size < FEWEST_BYTES || most_bytes(version) < size {
        return Err(Reason::JobSize.at(0));
    }
    Ok(())
}

// 12: the version and the closing bytes.
#[tactic(auto, unfolding(job_bytes::specs::Format::version))]
fn check_signature(version: Version, bytes: &[u8]) -> Result<(), Refusal>
    requires { 16 ≤ length bytes.now }
    ensures { check_of result ≡ signature_check version bytes.now }
{
    let at = bytes.len() - 16;
    let number = number_at(bytes, at + 12, 2);
    if number != version.number() || bytes[at + 14] != 0x54 || bytes[at + 15] != 0x4A {
        return Err(Reason::JobSignature.at(0));
    }
    Ok(())
}

// 13: note, rows and trailer meet and end exactly.
fn check_layout(version: Version, bytes: &[u8]) -> Result<(), Refusal>
    requires { 16 ≤ length bytes.now }
    ensures { check_of result ≡ layout_check version bytes.now }
{
    let t = Trailer::read(bytes);
    let rows_end = t.member_offset + (16 + version.floor_width()) * t.members;
    if LONGEST_NOTE < t.arc_offset
        || t.member_offset != t.arc_offset + 8 * t.arcs
        || rows_end + 16 != bytes.len()
    {
        return Err(Reason::JobLayout.at(0));
    }
    Ok(())
}

// 11 to 13.
#[tactic(auto, unfolding(crate::specs::Form::form_check))]
pub fn check_form(version: Version, bytes: &[u8]) -> Result<(), Refusal>
    ensures { check_of result ≡ form_check version bytes.now }
{
    let size = check_size(version, bytes.len());
    let Ok(()) = size else {
        return size;
    };
    let signature = check_signature(version, bytes);
    let Ok(()) = signature else {
        return signature;
    };
    check_layout(version, bytes)
}

// 14 in version 1.
fn check_zero(filler: u64, arc: usize) -> Result<(), Refusal>
    ensures { check_of result ≡ fault (not (eqb filler 0)) 14 arc }
{
    if filler == 0 {
        Ok(())
    } else {
        Err(Reason::JobFiller.at(arc))
    }
}

// 16 in version 2.
fn check_mark(mark: u64, arc: usize) -> Result<(), Refusal>
    ensures { check_of result ≡ fault (ltb 1 mark) 16 arc }
{
    if 1 < mark {
        Err(Reason::Mark.at(arc))
    } else {
        Ok(())
    }
}

#[tactic(auto, unfolding(crate::specs::Form::filler_check))]
fn check_filler(version: Version, filler: u64, arc: usize) -> Result<(), Refusal>
    ensures { check_of result ≡ filler_check version filler arc }
{
    match version {
        Version::One => check_zero(filler, arc),
        Version::Two => check_mark(filler, arc),
    }
}

// 14 or 16 arc by arc, in the rows at an offset.
fn check_rows(version: Version, bytes: &[u8], offset: usize, arcs: usize) -> Result<(), Refusal>
    requires { offset + 8 * arcs ≤ length bytes.now }
    ensures { check_of result ≡ fillers_from version bytes.now offset 0 arcs }
{
    for i in 0..arcs {
        let found = check_filler(version, number_at(bytes, offset + 2 + 8 * i, 2), i + 1);
        let Ok(()) = found else {
            return found;
        };
    }
    Ok(())
}

// 14 in version 1, 16 in version 2.
pub fn check_fillers(version: Version, bytes: &[u8]) -> Result<(), Refusal>
    requires { Layout version bytes.now }
    ensures { check_of result ≡ fillers_check version bytes.now }
{
    let t = Trailer::read(bytes);
    check_rows(version, bytes, t.arc_offset, t.arcs)
}
