// The members at their vertices: their caps and numbers put there, and their shares read off.
ghost use Rattle.std.specs.Prelude.{◌≡◌, ℕ, ◌<◌, ◌≤◌, length};
ghost use Rattle.limits.specs.Limits.{most_arcs};
ghost use Rattle.key_passes.specs.Passes.{at, share_at, Apart, AtVertices};

use key_passes::{Members, VERTICES, share_at};

// The list of caps by vertex has 0 at every place.
pub fn place_members(vertices: &[u16], caps: &[u64], members: &mut Members)
    requires vertices_len_bound { length vertices.now ≤ most_arcs }
    requires apart { Apart vertices.now }
    requires caps_len { length caps.now ≡ length vertices.now }
    requires by_index { (w : ℕ) → at members.old.caps w ≡ 0 }
    ensures { AtVertices vertices.now caps.now members.new.caps members.new.numbers }
{
    for (j, &vertex) in vertices.iter().enumerate() {
        let v = usize::from(vertex);
        members.caps[v] = caps[j];
        members.numbers[v] = j as u16;
    }
}

// Writes what each member has at the key that stands at its vertex.
pub fn read_off(vertices: &[u16], caps: &[u64], keys: &[u64; VERTICES], shares: &mut [u64])
    requires by_index { (j : ℕ) → j < length vertices.now → at vertices.now j ≤ most_arcs }
    requires caps_len { length caps.now ≡ length vertices.now }
    requires shares_len { length shares.old ≡ length vertices.now }
    ensures { (j : ℕ) → j < length vertices.now
        → at shares.new j
        ≡ share_at (at caps.now j) j (at keys.now (at vertices.now j)) }
{
    for (j, &vertex) in vertices.iter().enumerate() {
        shares[j] = share_at(caps[j], j as u64, keys[usize::from(vertex)]);
    }
}
