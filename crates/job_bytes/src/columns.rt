// The columns of a job's rows, read into the front of a list; its other entries stay. Row 0 has its number at a place,
// and the rows are `stride` bytes apart.
ghost use Rattle.std.specs.Prelude.{◌≡◌, ◌++◌, ◌^◌, ◌<◌, ◌≤◌, ℕ, length, drop};
ghost use Rattle.std.proofs.Common.{rules};
ghost use Rattle.basics.specs.Sum.{entries};
ghost use Rattle.numbers.specs.Signed.{signed64};
ghost use Rattle.job_bytes.specs.Format.{column};
ghost use Rattle.job_bytes.specs.Inner.{Within};

use crate::number::number_at;

// The type of a column's entries.
pub trait Entry: Copy {
    // The entry that is read from a number in the rows.
    ghost read: { ℕ → Self };

    // The most bytes of such a number.
    ghost widest: { ℕ };

    fn of_number(n: u64) -> Self
        requires { n < 256 ^ widest }
        ensures { result ≡ read n };

    // It fits in 64 bits.
    ghost widest_bound: { widest ≤ 8 };
}

impl Entry for u16 {
    ghost read = { λ n. n };

    ghost widest = { 2 };

    ghost widest_bound = { Prim.search rules };

    fn of_number(n: u64) -> u16 {
        n as u16
    }
}

impl Entry for u32 {
    ghost read = { λ n. n };

    ghost widest = { 4 };

    ghost widest_bound = { Prim.search rules };

    fn of_number(n: u64) -> u32 {
        n as u32
    }
}

impl Entry for u64 {
    ghost read = { λ n. n };

    ghost widest = { 8 };

    ghost widest_bound = { Prim.search rules };

    fn of_number(n: u64) -> u64 {
        n
    }
}

// In two's complement.
impl Entry for i64 {
    ghost read = { signed64 };

    ghost widest = { 8 };

    ghost widest_bound = { Prim.search rules };

    fn of_number(n: u64) -> i64 {
        numbers::of_bits(n)
    }
}

// The column whose numbers have `width` bytes.
pub fn read_column<T: Entry>(
    bytes: &[u8],
    width: usize,
    at: usize,
    stride: usize,
    rows: usize,
    out: &mut [T],
)
    requires width_bound { width ≤ T.widest }
    requires within { Within bytes.now width at stride rows }
    requires rows_in_bounds { rows ≤ length out.old }
    ensures { out.new
        ≡ entries rows (λ i. T.read (column bytes.now width at stride i)) ++ drop rows out.old }
{
    for (i, entry) in out[..rows].iter_mut().enumerate() {
        *entry = T::of_number(number_at(bytes, at + stride * i, width));
    }
}
