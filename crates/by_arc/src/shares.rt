// The members' shares from the equal parts and the tallies.
ghost use Rattle.std.specs.Prelude.{◌≡◌, ◌/◌, ◌<◌, length};
ghost use Rattle.basics.specs.Sum.{entries};
ghost use Rattle.by_arc.specs.Shares.{Placed, share_of};

use crate::parts::at_vertex;

// The tally of a key.
fn tally_of(key: u32, base: u32) -> u32
    requires { 0 < base }
    ensures { result ≡ key / base }
{
    if key < base { 0 } else { key / base }
}

// A member's key stands where the users of its arc begin. The base of the keys is the number of members.
pub fn write_shares(
    vertices: &[u16],
    starts: &[u64],
    keys: &[u32],
    parts: &[u64],
    shares: &mut [u64],
)
    requires placed { Placed vertices.now starts.now keys.now parts.now }
    requires shares_len { length shares.old ≡ length vertices.now }
    ensures { shares.new ≡ entries (length vertices.now)
        (share_of vertices.now starts.now keys.now parts.now) }
{
    let base = vertices.len() as u32;
    for j in 0..vertices.len() {
        let v = usize::from(vertices[j]);
        let place = at_vertex(starts, v) as usize;
        let tally = tally_of(keys[place], base);
        shares[j] = at_vertex(parts, v) + u64::from(tally);
    }
}
