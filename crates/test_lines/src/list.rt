// Reading lists of numbers: a comma between two, and "-" for no entries.
ghost use Rattle.std.specs.Prelude.{◌≡◌, ◌≢◌, [], ◌∷◌, ◌==◌, IfSome};
ghost use Rattle.std.specs.List.{slice_split};
ghost use Rattle.std.specs.Fn.{FnReturnsAt};
ghost use Rattle.std.specs.Iterator.{YieldsFirstRef, item_count};
ghost use Rattle.test_lines.specs.Lists.{Front, FrontOf, parts_of};

use crate::{number, scan};

// The most entries of a list.
pub const MOST: usize = 1100;

// The entries of a list's text, one after another.
#[derive(Drop)]
pub struct Entries<'a> {
    // The text of those that are left, where there are any.
    pub text: Option<&'a [u8]>,
}

impl<'a> Entries<'a> {
    pub fn of(s: &'a [u8]) -> Entries<'a>
        ensures none { s.now ≡ 45 ∷ [] → parts_of result.text ≡ [] }
        ensures some { s.now ≢ 45 ∷ [] → parts_of result.text ≡ slice_split (λ byte. byte == 44) s.now }
    {
        Entries {
            text: if s == b"-".as_slice() { None } else { Some(s) },
        }
    }
}

impl<'a> Iterator for Entries<'a> {
    type Item = &'a [u8];

    ghost next_gives = { YieldsFirstRef (λ s. parts_of s.text) };

    ghost remaining = { item_count (λ s. parts_of s.text) };

    fn next(&mut self) -> Option<&'a [u8]> {
        let text = self.text?;
        match scan::find(text, b',') {
            Some(end) => {
                self.text = Some(&text[end + 1..]);
                Some(&text[..end])
            }
            None => {
                self.text = None;
                Some(text)
            }
        }
    }
}

// A list, each entry as `entry` reads it, into the front of out; how many there are.
pub fn read<T: Copy, F: Fn(&[u8]) -> Option<T>>(s: &[u8], entry: F, out: &mut [T]) -> Option<usize>
    requires { F.IsAlwaysCallable entry }
    ensures { IfSome result (λ n. FrontOf (λ x. (part : _) × FnReturnsAt F.Fn entry part (Some x)) n out.new) }
{
    let mut n = 0;
    for part in Entries::of(s) {
        let value = entry(part)?;
        if out.len() <= n {
            return None;
        }
        out[n] = value;
        n += 1;
    }
    Some(n)
}

// A list of numbers up to most, into the front of out; how many there are.
pub fn read_up_to(s: &[u8], most: usize, out: &mut [usize]) -> Option<usize>
    ensures { IfSome result (λ n. Front n most out.new) }
{
    read(s, |part| number::up_to(part, most), out)
}
