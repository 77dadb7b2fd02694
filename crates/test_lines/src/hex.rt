// Reading bytes: two hexadecimal digits each, in lower case, and "-" for no bytes.
ghost use Rattle.std.specs.Prelude.{◌+◌, ◌*◌, ◌<◌, ◌≤◌, ◌≡◌, IfSome, is_some, length, ltb, unwrap_or};
ghost use Rattle.std.proofs.Math.Seq.{paste};
ghost use Rattle.test_lines.specs.Hex.{Digits, HexRead, all_digits, bytes_of, digit_of, is_digits, is_hex};

use crate::scan;

// A digit's value.
fn digit(byte: u8) -> Option<usize>
    ensures value { unwrap_or result 16 ≡ digit_of byte }
    ensures upper_bound { IfSome result (λ value. value < 16) }
{
    scan::find(b"0123456789abcdef", byte)
}

fn is_digit(byte: u8) -> bool
    ensures { result ≡ ltb (digit_of byte) 16 }
{
    digit(byte).is_some()
}

fn all_digits(s: &[u8]) -> bool
    ensures { result ≡ all_digits s.now }
{
    s.iter().all(|byte| is_digit(*byte))
}

// Whether these are the digits of 1 to `room` bytes.
fn is_digits(s: &[u8], room: usize) -> bool
    ensures { result ≡ is_digits s.now room }
{
    !s.is_empty() && s.len() % 2 == 0 && s.len() / 2 <= room && all_digits(s)
}

fn is_hex(s: &[u8], room: usize) -> bool
    ensures { result ≡ is_hex s.now room }
{
    s == b"-".as_slice() || is_digits(s, room)
}

// The byte with these two digits.
fn byte_of(high: u8, low: u8) -> u8
    requires high_bound { digit_of high < 16 }
    requires low_bound { digit_of low < 16 }
    ensures { result ≡ 16 * digit_of high + digit_of low }
{
    (16 * digit(high).unwrap() + digit(low).unwrap()) as u8
}

// The first n bytes, into the front of out.
fn decode(s: &[u8], n: usize, out: &mut [u8])
    requires n_in_bounds { n ≤ length out.old }
    requires digits { Digits (2 * n) s.now }
    ensures { out.new ≡ paste out.old 0 (bytes_of s.now) n }
{
    for i in 0..n {
        out[i] = byte_of(s[2 * i], s[2 * i + 1]);
    }
}

// The bytes of a field, into the front of out; how many there are.
pub fn read(s: &[u8], out: &mut [u8]) -> Option<usize>
    ensures { HexRead s.now out.old out.new (is_some result) (unwrap_or result 0) }
{
    if !is_hex(s, out.len()) {
        return None;
    }
    let n = s.len() / 2;
    decode(s, n, out);
    Some(n)
}
