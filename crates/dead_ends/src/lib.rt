// Which vertices have a child, and the marks of the dead ends, which have none. The parent list need not be checked.
#![tactic(auto)]

ghost use Rattle.std.specs.Prelude.{◌≡◌, ℕ, ◌≤◌, false, length, get_or};
ghost use Rattle.limits.specs.Limits.{most_arcs};
ghost use Rattle.game.specs.Tree.{has_child, dead_ends};

use limits::MOST_ARCS;

// By vertex from 1 on: whether some entry names it as a parent. An entry above the limit stands for the source.
pub fn find_children(parents: &[u16]) -> [bool; MOST_ARCS + 1]
    ensures { (v : ℕ) → 1 ≤ v → v ≤ most_arcs → get_or result v false ≡ has_child parents.now v }
{
    let mut has_child = [false; MOST_ARCS + 1];
    for parent in parents {
        let p = usize::from(*parent);
        let vertex = if p <= MOST_ARCS { p } else { 0 };
        has_child[vertex] = true;
    }
    has_child
}

// Writes 1 at each dead end and 0 elsewhere.
pub fn write_dead_ends(parents: &[u16], out: &mut [u16])
    requires parents_len_bound { length parents.now ≤ most_arcs }
    requires out_len { length out.old ≡ length parents.now }
    ensures { out.new ≡ dead_ends parents.now }
{
    let has_child = find_children(parents);
    for (i, mark) in out.iter_mut().enumerate() {
        *mark = u16::from(!has_child[i + 1]);
    }
}
