// The widest margin in a branch.
ghost use Rattle.std.specs.Prelude.{◌≡◌, ◌≤◌, length, ltb};
ghost use Rattle.game.specs.Network.{member_count};
ghost use Rattle.game.specs.Tree.{tree_of, network_of, network};
ghost use Rattle.game.specs.Margin.{widest, shares_at};
ghost use Rattle.game.proofs.Branched.{Branched};
ghost use Rattle.answer_forms.specs.Answer.{value, fault, ◌then◌, answer, written};
ghost use Rattle.answers.specs.Checks.{output_check};
ghost use Rattle.answers.specs.Margin.{margin_answer, margin_list};
ghost use Rattle.tree.specs.Passes.{Sound, Costed, Marked};
ghost use Rattle.engine.specs.Inner.{margin_at};
ghost use Rattle.engine.specs.Outcomes.{margin_of};

use answer_forms::Refusal;
use limits::MOST_ARCS;

// The widest margin, and the number of the arc's users.
#[derive(Clone, Copy, Debug, PartialEq, Eq)]
pub struct MarginSplit {
    pub margin: u64,
    pub users: usize,
}

// `vertices` is room for one entry a member.
fn share_out(
    parents: &[u16],
    costs: &[u32],
    marks: &[u16],
    arc: usize,
    vertices: &mut [u16],
    out: &mut [u64],
) -> u64
    requires sound { Sound parents.now }
    requires costed { Costed parents.now costs.now }
    requires marked { Marked parents.now marks.now }
    requires branched { Branched (network_of parents.now costs.now marks.now) arc }
    requires bound { 2 ≤ member_count (network_of parents.now costs.now marks.now) }
    requires vertices_len { length vertices.old ≡ member_count (network_of parents.now costs.now marks.now) }
    requires out_len { length out.old ≡ member_count (network_of parents.now costs.now marks.now) }
    ensures value { result ≡ widest (network_of parents.now costs.now marks.now) arc }
    ensures out_after { let n = network_of parents.now costs.now marks.now in
        out.new ≡ shares_at n (widest n arc) }
{
    tree::write_members(marks, vertices);
    margin::write_margin(parents, costs, vertices, arc, out)
}

// The lists are accepted, and the costs counted.
fn split_accepted(
    parents: &[u16],
    costs: &[u32],
    marks: &[u16],
    arc: usize,
    users: usize,
    out: &mut [u64],
) -> MarginSplit
    requires sound { Sound parents.now }
    requires costed { Costed parents.now costs.now }
    requires marked { Marked parents.now marks.now }
    requires branched { Branched (network_of parents.now costs.now marks.now) arc }
    requires bound { 2 ≤ member_count (network_of parents.now costs.now marks.now) }
    requires users_value { users ≡ member_count (network_of parents.now costs.now marks.now) }
    requires out_len { length out.old ≡ member_count (network_of parents.now costs.now marks.now) }
    ensures result_value { let n = network_of parents.now costs.now marks.now in
        result ≡ record { margin = widest n arc; users = member_count n } }
    ensures out_after { let n = network_of parents.now costs.now marks.now in
        out.new ≡ shares_at n (widest n arc) }
{
    let mut vertices = [0u16; MOST_ARCS];
    let margin = share_out(parents, costs, marks, arc, &mut vertices[0..users], out);
    MarginSplit { margin, users }
}

// The arc leaves the source, and the marks are those of its branch. 26, then 8.
fn split_branch(
    parents: &[u16],
    costs: &[u32],
    marks: &[u16],
    arc: usize,
    out: &mut [u64],
) -> Result<MarginSplit, Refusal>
    requires sound { Sound parents.now }
    requires costed { Costed parents.now costs.now }
    requires marked { Marked parents.now marks.now }
    requires branched { Branched (network (tree_of parents.now costs.now marks.now)) arc }
    ensures result_value { let n = network (tree_of parents.now costs.now marks.now) in
        margin_of result
        ≡ answer (fault (ltb (member_count n) 2) 26 arc then output_check (member_count n) out.old)
        (margin_at n arc) }
    ensures out_after { let n = network (tree_of parents.now costs.now marks.now) in
        out.new
        ≡ written (fault (ltb (member_count n) 2) 26 arc then output_check (member_count n) out.old)
        out.old (shares_at n (widest n arc)) }
{
    let users = tree::count_members(marks);
    checks::check_branch_users(users, arc)?;
    checks::check_output(out.len(), users)?;
    let m = parents.len();
    let mut counted = [0u32; MOST_ARCS];
    tree::write_counted(parents, costs, marks, &mut counted[0..m]);
    Ok(split_accepted(parents, &counted[0..m], marks, arc, users, out))
}

// Writes one share for each user of the arc. The tree's refusals, 25, 26, then 8.
#[tactic(auto, unfolding(answers::specs::Margin::margin_answer, answers::specs::Margin::margin_list))]
pub fn split_margin(
    parents: &[u16],
    costs: &[u32],
    marks: &[u16],
    arc: usize,
    out: &mut [u64],
) -> Result<MarginSplit, Refusal>
    ensures result_value { margin_of result
        ≡ margin_answer (tree_of parents.now costs.now marks.now) arc
        out.old }
    ensures out_after { out.new
        ≡ margin_list (tree_of parents.now costs.now marks.now) arc
        out.old }
{
    checks::check_tree(parents, costs, marks)?;
    checks::check_branch_arc(parents, arc)?;
    let m = parents.len();
    let mut branch = [0u16; MOST_ARCS];
    margin::write_branch_marks(parents, marks, arc, &mut branch[0..m]);
    split_branch(parents, costs, &branch[0..m], arc, out)
}
