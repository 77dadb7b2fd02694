#![tactic(auto)]
// Runs the engine's entries on the cases of standard input, one a line, and prints a line each.
mod case;
mod class_case;
mod command;
mod convert_case;
mod each_byte;
mod event_case;
mod event_text;
mod job2_case;
mod job_case;
mod job_lists;
mod level_case;
mod lines;
mod next_case;
mod output;
mod print;
mod read;
mod state_case;
mod step_text;
mod steps;
mod write_case;

use std::io;

// The room for a line: a job has two digits a byte, and up to job_lists::MOST_BYTES bytes.
const MOST_LINE: usize = 70000;

// The bytes of the input that are read at once.
const MOST_PART: usize = 65536;

fn main(rt: HostRuntime) -> io::Result<()> {
    let mut part = [0u8; MOST_PART];
    let mut line = [0u8; MOST_LINE];
    lines::run_all(&mut rt.reader(), &mut io::writer(&rt), &mut part, &mut line)
}
