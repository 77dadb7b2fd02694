// Searching a list for a byte.
ghost use Rattle.std.specs.Prelude.{◌≡◌, ◌==◌, position};

// The first place where the byte stands.
pub fn find(xs: &[u8], byte: u8) -> Option<usize>
    ensures { result ≡ position (λ x. x == byte) xs.now }
{
    xs.iter().position(|x| *x == byte)
}
