// The active members: those with an excess at their own arc and at every arc above it.
ghost use Rattle.std.specs.Prelude.{[]};
ghost use Rattle.game.specs.Tree.{network_of};
ghost use Rattle.tree.specs.Passes.{Sound, Marked};
ghost use Rattle.search.specs.Passes.{Chosen};

use limits::MOST_ARCS;

// The words of the active members, from the source outward.
pub fn choose_active(parents: &[u16], marks: &[u16], of: &[u64; MOST_ARCS + 1]) -> [u64; 16]
    requires sound { Sound parents.now }
    requires marked { Marked parents.now marks.now }
    ensures { Chosen (network_of parents.now [] marks.now) of.now result }
{
    let mut active = [false; MOST_ARCS + 1];
    active[0] = true;
    let mut words = [0u64; 16];
    let mut j = 0;
    for i in 0..parents.len() {
        // An arc is active where it has an excess and its parent is active.
        let on = 0 < of[i + 1] && active[usize::from(parents[i])];
        active[i + 1] = on;
        if marks[i] == 1 {
            bits::put(&mut words, j, on);
            j += 1;
        }
    }
    words
}
