// Numbers in decimal.
ghost use Rattle.std.specs.Prelude.{◌++◌, ◌+◌, ◌≤◌, length};
ghost use Rattle.buffer.specs.Put.{Put};
ghost use Rattle.text.specs.Decimal.{decimal, signed_decimal};

use buffer::put;

// A 64-bit number has at most 20 digits.
pub fn put_number(out: &mut [u8], at: usize, n: u64) -> usize
    requires { at + 20 ≤ length out.old }
    ensures put { Put out.old at (decimal n) out.new result }
    ensures upper_bound { result ≤ at + 20 }
{
    let mut digits = [0u8; 20];
    let k = io::decimal(n, &mut digits);
    put(out, at, &digits[0..k])
}

// A label, then a number.
pub fn put_labelled(out: &mut [u8], at: usize, label: &[u8], n: u64) -> usize
    requires { at + length label.now + 20 ≤ length out.old }
    ensures put { Put out.old at (label.now ++ decimal n) out.new result }
    ensures upper_bound { result ≤ at + length label.now + 20 }
{
    let next = put(out, at, label);
    put_number(out, next, n)
}

// A minus for a negative number, and no other sign.
pub fn put_signed(out: &mut [u8], at: usize, n: i64) -> usize
    requires { at + 21 ≤ length out.old }
    ensures put { Put out.old at (signed_decimal n) out.new result }
    ensures upper_bound { result ≤ at + 21 }
{
    if n < 0 {
        put_labelled(out, at, b"-", n.unsigned_abs())
    } else {
        put_number(out, at, n.unsigned_abs())
    }
}

// A label, then a signed number.
pub fn put_labelled_signed(out: &mut [u8], at: usize, label: &[u8], n: i64) -> usize
    requires { at + length label.now + 21 ≤ length out.old }
    ensures put { Put out.old at (label.now ++ signed_decimal n) out.new result }
    ensures upper_bound { result ≤ at + length label.now + 21 }
{
    let next = put(out, at, label);
    put_signed(out, next, n)
}
