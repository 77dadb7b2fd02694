// Bytes written into a lent list at a place.
#![tactic(auto)]

ghost use Rattle.std.specs.Prelude.{◌+◌, ◌≤◌, length};
ghost use Rattle.buffer.specs.Put.{Put};

pub fn put(out: &mut [u8], at: usize, piece: &[u8]) -> usize
    requires { at + length piece.now ≤ length out.old }
    ensures { Put out.old at piece.now out.new result }
{
    // Byte by byte: `copy_from_slice` becomes a call of `memmove` here, which the C archive does not otherwise need.
    for i in 0..piece.len() {
        out[at + i] = piece[i];
    }
    at + piece.len()
}
