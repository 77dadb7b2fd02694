// A number and the rows of a job, written into a lent list at a place. Each function answers the place after what it
// wrote.
ghost use Rattle.std.specs.Prelude.{◌≡◌, ◌+◌, ◌≤◌, length};
ghost use Rattle.buffer.specs.Put.{Put};
ghost use Rattle.job_bytes.specs.Numbers.{in_bytes};
ghost use Rattle.job_bytes.specs.Versions.{member_width};
ghost use Rattle.job_bytes.specs.JobBytes.{arc_row, member_row};

use crate::version::Version;

// A number in `width` bytes.
pub fn put_number(out: &mut [u8], at: usize, width: usize, n: u64) -> usize
    requires { at + width ≤ length out.old }
    ensures put { Put out.old at (in_bytes width n) out.new result }
    ensures value { result ≡ at + width }
{
    let mut rest = n;
    for byte in &mut out[at..at + width] {
        *byte = (rest % 256) as u8;
        rest /= 256;
    }
    at + width
}

pub fn put_arc(out: &mut [u8], at: usize, parent: u16, filler: u16, cost: u32) -> usize
    requires { at + 8 ≤ length out.old }
    ensures put { Put out.old at (arc_row parent filler cost) out.new result }
    ensures value { result ≡ at + 8 }
{
    let a = put_number(out, at, 2, u64::from(parent));
    let b = put_number(out, a, 2, u64::from(filler));
    put_number(out, b, 4, u64::from(cost))
}

pub fn put_member(
    out: &mut [u8],
    at: usize,
    version: Version,
    cap: u64,
    proposal: i64,
    floor: u64,
) -> usize
    requires { at + member_width version ≤ length out.old }
    ensures put { Put out.old at (member_row version cap proposal floor) out.new result }
    ensures value { result ≡ at + member_width version }
{
    let a = put_number(out, at, 8, cap);
    let b = put_number(out, a, 8, numbers::bits_of(proposal));
    put_number(out, b, version.floor_width(), floor)
}
