// The step from a parent list to the next one of as many arcs, in the list itself.
#![tactic(auto)]

ghost use Rattle.std.specs.Prelude.{◌≡◌, true, false, length, leb, MatchOption};
ghost use Rattle.std.proofs.Math.Option.{Option-elim, get_or};
ghost use Rattle.basics.specs.Sum.{pick, list};
ghost use Rattle.game.specs.Tree.{of_arc};
ghost use Rattle.answers.specs.ParentLists.{following};
ghost use Rattle.tree.specs.Passes.{Sound};
ghost use Rattle.parent_lists.specs.Rising.{FullBehind, Rises};

// The highest arc with a vertex above its parent and below the arc.
fn rising_arc(parents: &[u16]) -> Option<usize>
    requires { Sound parents.now }
    ensures { MatchOption result (FullBehind parents.now 0) (Rises parents.now) }
{
    for arc in (1..parents.len() + 1).rev() {
        if usize::from(parents[arc - 1]) + 1 < arc {
            return Some(arc);
        }
    }
    None
}

// 0 at the arcs above this one.
fn clear_behind(parents: &mut [u16], arc: usize)
    ensures { parents.new ≡ list (length parents.old)
        (λ k. pick (leb k arc) (of_arc parents.old k)) }
{
    if arc < parents.len() {
        parents[arc..].fill(0);
    }
}

// Writes the list that follows, and says whether there is one; where there is none the list stays.
pub fn step(parents: &mut [u16]) -> bool
    requires { Sound parents.old }
    ensures value { result ≡ Option-elim (following parents.old) false (λ _. true) }
    ensures parents_after { parents.new
        ≡ get_or (following parents.old) parents.old }
{
    let Some(arc) = rising_arc(parents) else {
        return false;
    };
    clear_behind(parents, arc);
    parents[arc - 1] += 1;
    true
}
