// Printing lists and bytes to a writer, each after what it belongs to: a colon, then the entries, or a dash where there
// are none.
use crate::rest;
use std::fmt::Display;
use std::io::{Result, Write};

// The entries have a comma between two.
pub fn list<W: Write, T: Display>(writer: &mut W, entries: &[T]) -> Result<()> {
    let Some((first, others)) = entries.split_first() else {
        return write!(writer, ": -");
    };
    write!(writer, ": {first}")?;
    for entry in others {
        write!(writer, ",{entry}")?;
    }
    Ok(())
}

// As list, without the zeros at the end.
pub fn trimmed<W: Write, T: Display + PartialEq + Default + Copy>(
    writer: &mut W,
    entries: &[T],
) -> Result<()> {
    let n = rest::end_of_others(entries, T::default());
    list(writer, &entries[..n])
}

// A byte has two hexadecimal digits.
pub fn bytes<W: Write>(writer: &mut W, entries: &[u8]) -> Result<()> {
    if entries.is_empty() {
        return write!(writer, ": -");
    }
    write!(writer, ": ")?;
    for byte in entries {
        write!(writer, "{byte:02x}")?;
    }
    Ok(())
}
