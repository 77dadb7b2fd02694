// Before the first round every vertex is open and linked to its parent.
ghost use Rattle.std.specs.Prelude.{◌≡◌, ℕ, ◌≤◌, length};
ghost use Rattle.basics.specs.Sum.{list};
ghost use Rattle.basics.proofs.Sums.{In};
ghost use Rattle.game.specs.Tree.{of_arc};
ghost use Rattle.limits.specs.Limits.{most_arcs};
ghost use Rattle.key_passes.specs.Passes.{at};

use key_passes::VERTICES;

pub fn open_all(parents: &[u16], order: &mut [u16], links: &mut [u16; VERTICES])
    requires parents_len_bound { length parents.now ≤ most_arcs }
    requires order_len { length order.old ≡ length parents.now }
    ensures order_after { order.new ≡ list (length parents.now) (λ v. v) }
    ensures by_index { (v : ℕ) → In (length parents.now) v
        → at links.new v ≡ of_arc parents.now v }
{
    for (i, &parent) in parents.iter().enumerate() {
        order[i] = (i + 1) as u16;
        links[i + 1] = parent;
    }
}
