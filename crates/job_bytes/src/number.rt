// Little-endian numbers.
ghost use Rattle.std.specs.Prelude.{◌≡◌, ◌+◌, ◌^◌, ◌<◌, ◌≤◌, length};
ghost use Rattle.job_bytes.specs.Numbers.{little_endian};

// The number of `width` bytes from a place on.
pub fn number_at(bytes: &[u8], at: usize, width: usize) -> u64
    requires width_bound { width ≤ 8 }
    requires width_in_bounds { at + width ≤ length bytes.now }
    ensures value { result ≡ little_endian bytes.now at width }
    ensures upper_bound { result < 256 ^ width }
{
    bytes[at..at + width]
        .iter()
        .rev()
        .fold(0, |n, byte| n << 8 | u64::from(*byte))
}
