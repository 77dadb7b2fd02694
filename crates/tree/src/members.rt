// The members: the marked vertices.
ghost use Rattle.std.specs.Prelude.{◌≡◌, ◌≤◌, length, eqb};
ghost use Rattle.basics.specs.Sum.{pick, count};
ghost use Rattle.limits.specs.Limits.{most_arcs};
ghost use Rattle.game.specs.Network.{members_to};
ghost use Rattle.game.specs.Tree.{marked};

// 1 for a mark of 1, else 0.
fn one_if_marked(mark: u16) -> usize
    ensures { result ≡ pick (eqb mark 1) 1 }
{
    usize::from(mark == 1)
}

// The number of members. `filter` and `count` are slower: they branch at each mark.
pub fn count_members(marks: &[u16]) -> usize
    ensures { result ≡ count (length marks.now) (marked marks.now) }
{
    let mut n = 0;
    for mark in marks {
        n += one_if_marked(*mark);
    }
    n
}

// Writes the members' vertices in rising order.
pub fn write_members(marks: &[u16], out: &mut [u16])
    requires marks_len_bound { length marks.now ≤ most_arcs }
    requires out_len { length out.old ≡ count (length marks.now) (marked marks.now) }
    ensures { out.new ≡ members_to (marked marks.now) (length marks.now) }
{
    let mut j = 0;
    for (i, mark) in marks.iter().enumerate() {
        if *mark == 1 {
            out[j] = (i + 1) as u16;
            j += 1;
        }
    }
}
