// A bit of a word, and signed numbers by their parts and bits.
#![tactic(auto)]

mod signed;

ghost use Rattle.std.specs.Prelude.{◌≡◌, ◌<◌};
ghost use Rattle.basics.specs.Bit.{digit};

pub use signed::{bits_of, minus, of_bits, plus};

// Whether bit i of a word is set.
pub fn bit_of(word: u64, i: usize) -> bool
    requires { i < 64 }
    ensures { result ≡ digit word i }
{
    word >> i & 1 == 1
}
