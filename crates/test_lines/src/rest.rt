// Whether a list's entries from a place on all hold one value, and where those at its end begin.
ghost use Rattle.std.specs.Prelude.{◌≤◌, length};
ghost use Rattle.test_lines.specs.Lists.{EqIsSame, RestFrom, RestIs};

// Whether all of a list's entries are the value.
fn all_are<T: PartialEq + Copy>(entries: &[T], value: T) -> bool
    ensures { EqIsSame T.eq → RestIs entries.now 0 value result }
{
    entries.iter().all(|entry| *entry == value)
}

// Whether those from a place on are, at a type whose == says that two values are the same.
pub fn is<T: PartialEq + Copy>(entries: &[T], from: usize, value: T) -> bool
    ensures { EqIsSame T.eq → RestIs entries.now from value result }
{
    all_are(&entries[from.min(entries.len())..], value)
}

// The end of the last entry that is not the value.
pub fn end_of_others<T: PartialEq + Copy>(entries: &[T], value: T) -> usize
    ensures bound { result ≤ length entries.now }
    ensures place { EqIsSame T.eq → RestFrom entries.now value result }
{
    entries
        .iter()
        .rposition(|entry| *entry != value)
        .map_or(0, |last| last + 1)
}
