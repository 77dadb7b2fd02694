// The lists that an entry fills; each entry is 9 before the call.
use std::fmt::Display;
use std::io::{Result, Write};
use test_lines::{field, number};

// A list of the length in field n, at the front of the room for it.
pub fn output<'a, T>(line: &[u8], n: usize, room: &'a mut [T]) -> Option<&'a mut [T]> {
    let k = number::up_to(field::nth(line, n), room.len())?;
    Some(&mut room[..k])
}

// Prints what `run` does with the list, then the list: after a refusal too, which leaves it as it came.
pub fn with_list<W: Write, T: Display, F: FnOnce(&mut W, &mut [T]) -> Result<()>>(
    writer: &mut W,
    list: &mut [T],
    run: F,
) -> Result<()>
    requires { F.IsAlwaysCallable run }
{
    run(writer, list)?;
    test_lines::print::list(writer, list)
}

// As with_list, on a list of the length in field n.
pub fn with_output<W: Write, T: Display, F: FnOnce(&mut W, &mut [T]) -> Result<()>>(
    writer: &mut W,
    line: &[u8],
    n: usize,
    room: &mut [T],
    run: F,
) -> Option<Result<()>>
    requires { F.IsAlwaysCallable run }
{
    let list = output(line, n, room)?;
    Some(with_list(writer, list, run))
}
