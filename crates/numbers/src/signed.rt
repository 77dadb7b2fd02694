// A signed number taken apart, and made of its bits.
ghost use Rattle.std.specs.Prelude.{◌≡◌};
ghost use Rattle.basics.specs.Integer.{plus as plusOf, minus as minusOf};
ghost use Rattle.numbers.specs.Signed.{signed64, bits64};

// x where it is positive, else 0.
pub fn plus(x: i64) -> u64
    ensures { result ≡ plusOf x }
{
    x.max(0).unsigned_abs()
}

// -x where x is negative, else 0.
pub fn minus(x: i64) -> u64
    ensures { result ≡ minusOf x }
{
    x.min(0).unsigned_abs()
}

// The number with these bits in two's complement.
pub fn of_bits(bits: u64) -> i64
    ensures { result ≡ signed64 bits }
{
    bits.cast_signed()
}

// The bits of a number in two's complement.
pub fn bits_of(x: i64) -> u64
    ensures { result ≡ bits64 x }
{
    x.cast_unsigned()
}
