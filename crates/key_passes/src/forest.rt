// What a pass walks: the open vertices in rising order, the vertex that each is linked to, 0 for none, and the arcs'
// bounds.
ghost use Rattle.std.specs.Prelude.{◌≤◌, length};
ghost use Rattle.limits.specs.Limits.{most_arcs};
ghost use Rattle.key_passes.specs.Passes.{Rising};

use crate::VERTICES;

#[derive(Clone, Copy)]
pub struct Forest<'a> {
    pub order: &'a [u16],
    pub links: &'a [u16; VERTICES],
    pub bounds: &'a [u64],
    ghost bounds_len_bound: { length bounds.now ≤ most_arcs },
    ghost rising: { Rising (length bounds.now) order.now links.now },
}
