#![tactic(auto)]
// Reads a job on standard input and writes the report on it to standard output.
ghost use Rattle.std.specs.Prelude.{◌≡◌, ◌≤◌, ◌<◌, length, take, IfOk};
ghost use Rattle.std.specs.Io.KnownBytes.{Consumes, IsAtEnd};

use report_text::ROOM;
use std::io;
use std::io::{Read, Write};

// Room for one byte more than the longest job has, so that a longer one is refused like any other.
fn job_room() -> [u8; 24824]
    ensures { 24824 ≡ length result }
{
    [0; 24824]
}

fn report_room() -> [u8; ROOM]
    ensures { 196608 ≡ length result }
{
    [0; ROOM]
}

// Reads until the buffer is full or the input ends, and answers how many bytes it put at the buffer's front.
fn read_full<R: Read>(input: &mut R, buffer: &mut [u8]) -> io::Result<usize>
    ensures in_bounds { IfOk result (λ n. n ≤ length buffer.new) }
    ensures bytes { IfOk result (λ n. Consumes (R.remaining input.old) (R.remaining input.new) (take n buffer.new)) }
    ensures all { IfOk result (λ n. n < length buffer.new → IsAtEnd (R.remaining input.new)) }
{
    let mut done = 0;
    while done < buffer.len() {
        let n = input.read(&mut buffer[done..])?;
        if n == 0 {
            return Ok(done);
        }
        done += n;
    }
    Ok(done)
}

fn main(rt: HostRuntime) -> io::Result<()> {
    let mut input = job_room();
    let n = read_full(&mut rt.reader(), &mut input)?;
    let mut out = report_room();
    let size = report_text::report_text(&input[..n], &mut out);
    io::writer(&rt).write_all(&out[0..size])
}
