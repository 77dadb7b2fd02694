// The lines of the input, whose bytes come in parts: each line is run as a case where it ends.
ghost use Rattle.std.specs.Prelude.{◌≤◌, length, IfOk};

use crate::each_byte;
use std::io::{Read, Result, Write};

// The length of the line so far after one byte more; of a line longer than its room the rest is left out.
fn take_byte<W: Write>(writer: &mut W, byte: u8, line: &mut [u8], n: usize) -> Result<usize>
    requires { n ≤ length line.old }
    ensures { IfOk result (λ k. k ≤ length line.old) }
{
    if byte == b'\n' {
        each_byte::run(writer, &mut line[0..n])?;
        return Ok(0);
    }
    if line.len() <= n {
        return Ok(n);
    }
    line[n] = byte;
    Ok(n + 1)
}

// As take_byte, after all bytes of a part.
fn take_part<W: Write>(writer: &mut W, part: &[u8], line: &mut [u8], start: usize) -> Result<usize>
    requires { start ≤ length line.old }
    ensures { IfOk result (λ k. k ≤ length line.old) }
{
    let mut n = start;
    for byte in part {
        n = take_byte(writer, *byte, line, n)?;
    }
    Ok(n)
}

// A last line with no line end after it.
fn run_rest<W: Write>(writer: &mut W, line: &mut [u8]) -> Result<()> {
    if 0 < line.len() {
        each_byte::run(writer, line)?;
    }
    Ok(())
}

// Nothing says that the input ends, so the turns are counted, up to a number that no run comes to.
pub fn run_all<R: Read, W: Write>(
    reader: &mut R,
    writer: &mut W,
    part: &mut [u8],
    line: &mut [u8],
) -> Result<()> {
    let mut n = 0;
    for _ in 0..u64::MAX {
        let got = reader.read(part)?;
        if got == 0 {
            return run_rest(writer, &mut line[0..n]);
        }
        n = take_part(writer, &part[..got], line, n)?;
    }
    Ok(())
}
