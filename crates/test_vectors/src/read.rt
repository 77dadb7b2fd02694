// Reading the fields of a line; no value where a field is not what the command takes.
use test_lines::{field, hex, list};

// A tree, as lent to an entry.
#[derive(Clone, Copy, Debug, PartialEq, Eq)]
pub struct Tree<'a> {
    pub parents: &'a [u16],
    pub costs: &'a [u32],
    pub marks: &'a [u16],
}

// The list in field n, each entry as `entry` reads it, at the front of the room for it.
pub fn entries<'a, T: Copy, F: Fn(&[u8]) -> Option<T>>(
    line: &[u8],
    n: usize,
    entry: F,
    room: &'a mut [T],
) -> Option<&'a [T]>
    requires { F.IsAlwaysCallable entry }
{
    let k = list::read(field::nth(line, n), entry, room)?;
    Some(&room[..k])
}

// As entries, of bytes.
pub fn bytes<'a>(line: &[u8], n: usize, room: &'a mut [u8]) -> Option<&'a [u8]> {
    let k = hex::read(field::nth(line, n), room)?;
    Some(&room[..k])
}
