// The cases of the conversions: the job's bytes, then the length of the output.
use crate::job_lists::MOST_BYTES;
use crate::output::output;
use crate::{read, write_case};
use engine::Refusal;
use std::io;
use std::io::Write;

fn convert<W: Write, F: FnOnce(&[u8], &mut [u8]) -> Result<usize, Refusal>>(
    writer: &mut W,
    bytes: &[u8],
    out: &mut [u8],
    entry: F,
) -> io::Result<()>
    requires { F.IsAlwaysCallable entry }
{
    let answer = entry(bytes, out);
    write_case::written(writer, answer, out)
}

// Field 1 has the bytes, field 2 the output's length.
pub fn run<W: Write, F: FnOnce(&[u8], &mut [u8]) -> Result<usize, Refusal>>(
    writer: &mut W,
    line: &[u8],
    entry: F,
) -> Option<io::Result<()>>
    requires { F.IsAlwaysCallable entry }
{
    let mut bytes = [0u8; MOST_BYTES];
    let mut out = [9u8; MOST_BYTES];
    let bytes = read::bytes(line, 1, &mut bytes)?;
    let out = output(line, 2, &mut out)?;
    Some(convert(writer, bytes, out, entry))
}
