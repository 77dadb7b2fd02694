// The marks of a branch in one pass from the source outward: a vertex is in the branch where its parent is.
ghost use Rattle.std.specs.Prelude.{◌≡◌, ◌||◌, [], length, eqb};
ghost use Rattle.basics.specs.Sum.{pick};
ghost use Rattle.basics.proofs.Sums.{In};
ghost use Rattle.game.specs.Tree.{tree_of};
ghost use Rattle.game.specs.Branch.{branch_marks};
ghost use Rattle.tree.specs.Passes.{Sound};

use limits::MOST_ARCS;

// Writes the marks of the vertices at or below the arc, and 0 for the others.
pub fn write_branch_marks(parents: &[u16], marks: &[u16], arc: usize, out: &mut [u16])
    requires sound { Sound parents.now }
    requires marks_len { length marks.now ≡ length parents.now }
    requires fact { In (length parents.now) arc }
    requires out_len { length out.old ≡ length parents.now }
    ensures { out.new ≡ branch_marks (tree_of parents.now [] marks.now) arc }
{
    let mut inside = [false; MOST_ARCS + 1];
    for i in 0..parents.len() {
        // The arc enters the vertex, or its parent is in the branch.
        let here = arc == i + 1 || inside[usize::from(parents[i])];
        inside[i + 1] = here;
        out[i] = if here { marks[i] } else { 0 };
    }
}
