// A line with "**" in place of a byte's two digits stands for 256 lines, one for each byte.
ghost use Rattle.std.specs.Prelude.{◌+◌, ◌<◌, length};

use crate::case;
use std::io::{Result, Write};
use test_lines::scan;

fn digit(value: usize) -> u8
    requires { value < 16 }
{
    let digits = b"0123456789abcdef";
    digits[value]
}

// The digits stand from place at on.
fn run_each<W: Write>(writer: &mut W, line: &mut [u8], at: usize) -> Result<()>
    requires { at + 1 < length line.old }
{
    for byte in 0..256 {
        line[at] = digit(byte / 16);
        line[at + 1] = digit(byte % 16);
        case::run(writer, line)?;
    }
    Ok(())
}

pub fn run<W: Write>(writer: &mut W, line: &mut [u8]) -> Result<()> {
    match scan::find(line, b'*') {
        Some(at) if at + 1 < line.len() && line[at + 1] == b'*' => run_each(writer, line, at),
        _ => case::run(writer, line),
    }
}
