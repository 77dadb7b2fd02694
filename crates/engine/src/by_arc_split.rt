// The by-arc split.
ghost use Rattle.std.specs.Prelude.{◌≡◌, length};
ghost use Rattle.game.specs.Network.{member_count};
ghost use Rattle.game.specs.Tree.{tree_of, network_of};
ghost use Rattle.game.specs.ByArc.{by_arc};
ghost use Rattle.answer_forms.specs.Answer.{answer, written};
ghost use Rattle.answers.specs.Checks.{output_check};
ghost use Rattle.answers.specs.ByArc.{by_arc_answer, by_arc_list};
ghost use Rattle.tree.specs.Passes.{Sound, Costed, Marked};
ghost use Rattle.answer_forms.specs.Checked.{answer_of};

use answer_forms::Refusal;
use limits::MOST_ARCS;

// `vertices` is room for one entry a member.
fn divide(parents: &[u16], costs: &[u32], marks: &[u16], vertices: &mut [u16], out: &mut [u64])
    requires sound { Sound parents.now }
    requires costed { Costed parents.now costs.now }
    requires marked { Marked parents.now marks.now }
    requires vertices_len { length vertices.old ≡ member_count (network_of parents.now costs.now marks.now) }
    requires out_len { length out.old ≡ member_count (network_of parents.now costs.now marks.now) }
    ensures { out.new
        ≡ by_arc (network_of parents.now costs.now marks.now) }
{
    tree::write_members(marks, vertices);
    by_arc::write_by_arc(parents, costs, vertices, out);
}

// The tree is accepted and its members are marked. 8.
fn split_in_tree(
    parents: &[u16],
    costs: &[u32],
    marks: &[u16],
    out: &mut [u64],
) -> Result<usize, Refusal>
    requires sound { Sound parents.now }
    requires costed { Costed parents.now costs.now }
    requires marked { Marked parents.now marks.now }
    ensures result_value { let n = network_of parents.now costs.now marks.now in
        answer_of result ≡ answer (output_check (member_count n) out.old) (member_count n) }
    ensures out_after { let n = network_of parents.now costs.now marks.now in
        out.new ≡ written (output_check (member_count n) out.old) out.old (by_arc n) }
{
    let members = tree::count_members(marks);
    checks::check_output(out.len(), members)?;
    let mut vertices = [0u16; MOST_ARCS];
    divide(parents, costs, marks, &mut vertices[0..members], out);
    Ok(members)
}

// Writes one share a member. The tree's refusals, then 8.
#[tactic(auto, unfolding(answers::specs::ByArc::by_arc_answer, answers::specs::ByArc::by_arc_list))]
pub fn split_by_arc(
    parents: &[u16],
    costs: &[u32],
    marks: &[u16],
    out: &mut [u64],
) -> Result<usize, Refusal>
    ensures result_value { answer_of result
        ≡ by_arc_answer (tree_of parents.now costs.now marks.now) out.old }
    ensures out_after { out.new
        ≡ by_arc_list (tree_of parents.now costs.now marks.now) out.old }
{
    checks::check_tree(parents, costs, marks)?;
    let m = parents.len();
    let mut counted = [0u32; MOST_ARCS];
    tree::write_counted(parents, costs, marks, &mut counted[0..m]);
    split_in_tree(parents, &counted[0..m], marks, out)
}
