// The shares class after class, and the totals beside them.
ghost use Rattle.std.specs.Prelude.{◌≡◌, [], ◌++◌, ◌*◌, length};
ghost use Rattle.basics.specs.Sum.{total};
ghost use Rattle.game.specs.Network.{member_count, members_to, whole_cost};
ghost use Rattle.game.specs.Tree.{tree_of, marked, network_of, network};
ghost use Rattle.game.specs.ByArc.{by_arc};
ghost use Rattle.answer_forms.specs.Answer.{accepted};
ghost use Rattle.answers.specs.Checks.{tree_check};
ghost use Rattle.answers.specs.Classes.{classed_of, classed_check, joined, class_shares, paid_in, cost_in, by_class};

use crate::total::total_of;
use limits::{MOST_ARCS, MOST_CLASSES};

#[derive(Debug, Clone, Copy, PartialEq, Eq)]
pub struct ClassTotals {
    pub paid: u64,
    pub cost: u64,
}

// One class: its tree is accepted, and `vertices` are the members'.
fn split_class(
    parents: &[u16],
    costs: &[u32],
    marks: &[u16],
    vertices: &[u16],
    out: &mut [u64],
) -> ClassTotals
    requires marks_value { tree_check (tree_of parents.now costs.now marks.now) ≡ accepted }
    requires vertices_value { vertices.now ≡ members_to (marked marks.now) (length marks.now) }
    requires out_len { length out.old ≡ member_count (network_of parents.now [] marks.now) }
    ensures paid_value { let n = network (tree_of parents.now costs.now marks.now) in
        result.paid ≡ total (λ x. x) (by_arc n) }
    ensures cost_value { let n = network (tree_of parents.now costs.now marks.now) in
        result.cost ≡ whole_cost n }
    ensures out_after { out.new
        ≡ by_arc (network (tree_of parents.now costs.now marks.now)) }
{
    let m = parents.len();
    let mut counted = [0u32; MOST_ARCS];
    tree::write_counted(parents, costs, marks, &mut counted[0..m]);
    by_arc::write_by_arc(parents, &counted[0..m], vertices, out);
    ClassTotals {
        paid: total_of(out),
        cost: tree::whole_cost(&counted[0..m]),
    }
}

// Writes one share a member and class; answers the totals paid, then those of cost.
pub fn write_classes(
    parents: &[u16],
    costs: &[u32],
    marks: &[u16],
    classes: usize,
    vertices: &[u16],
    out: &mut [u64],
) -> [u64; 8]
    requires classes_value { classed_check (classed_of parents.now costs.now marks.now classes) ≡ accepted }
    requires vertices_value { vertices.now ≡ members_to (marked marks.now) (length marks.now) }
    requires out_len { length out.old ≡ classes * member_count (network_of parents.now [] marks.now) }
    ensures result_value { let w = classed_of parents.now costs.now marks.now classes in
        result ≡ by_class classes (paid_in w) ++ by_class classes (cost_in w) }
    ensures out_after { let w = classed_of parents.now costs.now marks.now classes in
        out.new ≡ joined classes (class_shares w) }
{
    let m = parents.len();
    let n = vertices.len();
    let mut totals = [0u64; 8];
    for c in 0..classes {
        let a = c * m;
        let j = c * n;
        let class = split_class(
            parents,
            &costs[a..a + m],
            marks,
            vertices,
            &mut out[j..j + n],
        );
        totals[c] = class.paid;
        totals[MOST_CLASSES + c] = class.cost;
    }
    totals
}
