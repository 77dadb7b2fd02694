// A group of members as sixteen 64-bit words: a member put in, its size, and the check on what is handed in.
#![tactic(auto)]

ghost use Rattle.std.specs.Prelude.{◌≡◌, ◌&&◌, ◌||◌, ℕ, ◌<◌, eqb, ltb};
ghost use Rattle.basics.specs.Bit.{digit, bit};
ghost use Rattle.basics.specs.Sum.{size};
ghost use Rattle.limits.specs.Limits.{group_bits};
ghost use Rattle.game.specs.Group.{words_of};
ghost use Rattle.answers.specs.Checks.{group_check};
ghost use Rattle.answer_forms.specs.Checked.{check_of};
ghost use Rattle.bits.specs.Words.{ClearRun};

use answer_forms::{Reason, Refusal};
use limits::GROUP_BITS;

// The word with bit i set.
fn set_in_word(word: u64, i: usize) -> u64
    requires { i < 64 }
    ensures { (k : ℕ) → digit result k ≡ (digit word k || eqb k i) }
{
    word | (1 << i)
}

// Puts member j into the group where `on`; no group has a member beyond its bits.
pub fn put(words: &mut [u64; 16], j: usize, on: bool)
    requires { words.old ≡ words_of (bit words.old) }
    ensures by_index { (i : ℕ) → bit words.new i
        ≡ (bit words.old i || (on && (eqb i j && ltb j group_bits))) }
    ensures words_after { words.new ≡ words_of (bit words.new) }
{
    if on && j < GROUP_BITS {
        words[j / 64] = set_in_word(words[j / 64], j % 64);
    }
}

// How many bits of a word are set.
fn ones_in(word: u64) -> usize
    ensures { result ≡ size 64 (digit word) }
{
    word.count_ones() as usize
}

// How many members are in the group.
pub fn size_of(words: [u64; 16]) -> usize
    ensures { result ≡ size group_bits (bit words) }
{
    let mut total: usize = 0;
    for word in words {
        total += ones_in(word);
    }
    total
}

// How many bits from bit j on are seen to be clear: those to the end of its word where all of them are, else 1 or 0.
fn clear_run(words: [u64; 16], j: usize) -> usize
    requires { j < group_bits }
    ensures { ClearRun words j result }
{
    if words[j / 64] >> (j % 64) == 0 {
        64 - j % 64
    } else if numbers::bit_of(words[j / 64], j % 64) {
        0
    } else {
        1
    }
}

// 5: no bit stands at or beyond the number of members.
pub fn check_group(members: usize, words: [u64; 16]) -> Result<(), Refusal>
    ensures { check_of result ≡ group_check members words }
{
    let mut j = members;
    while j < GROUP_BITS {
        let clear = clear_run(words, j);
        if clear == 0 {
            return Err(Reason::GroupBit.at(j));
        }
        j += clear;
    }
    Ok(())
}
