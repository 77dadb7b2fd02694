// The running sums of caps in a lent list, one an arc; the sum of all caps.
ghost use Rattle.std.specs.Prelude.{◌≡◌, [], length};
ghost use Rattle.basics.specs.Sum.{list};
ghost use Rattle.game.specs.Network.{member_count};
ghost use Rattle.game.specs.Tree.{tree_of, network_of};
ghost use Rattle.answer_forms.specs.Answer.{accepted, value, ◌then◌, answer, written};
ghost use Rattle.answers.specs.Checks.{output_check};
ghost use Rattle.answers.specs.Level.{cap_sum, caps_check};
ghost use Rattle.answers.specs.CapSums.{all_caps, cap_sums_answer, cap_sums_list};
ghost use Rattle.tree.specs.Passes.{Sound, Marked};
ghost use Rattle.answer_forms.specs.Checked.{answer_of};

use answer_forms::Refusal;
use limits::MOST_ARCS;

// The lists are accepted; `vertices` is room for one entry a member.
fn list_accepted(
    parents: &[u16],
    marks: &[u16],
    caps: &[u64],
    vertices: &mut [u16],
    out: &mut [u64],
) -> u64
    requires sound { Sound parents.now }
    requires marked { Marked parents.now marks.now }
    requires caps_value { caps_check (member_count (network_of parents.now [] marks.now)) caps.now ≡ accepted }
    requires vertices_len { length vertices.old ≡ member_count (network_of parents.now [] marks.now) }
    requires out_len { length out.old ≡ length parents.now }
    ensures value { result ≡ all_caps caps.now }
    ensures out_after { out.new ≡ list (length parents.now)
        (cap_sum (network_of parents.now [] marks.now) caps.now) }
{
    tree::write_members(marks, vertices);
    tree::write_cap_sums(parents, vertices, caps, out)
}

// The tree is accepted. 6 and 7 on caps, then 8.
fn list_in_tree(
    parents: &[u16],
    marks: &[u16],
    caps: &[u64],
    out: &mut [u64],
) -> Result<u64, Refusal>
    requires sound { Sound parents.now }
    requires marked { Marked parents.now marks.now }
    ensures result_value { let n = network_of parents.now [] marks.now in
        answer_of result
        ≡ answer (caps_check (member_count n) caps.now then output_check n.arcs out.old)
        (all_caps caps.now) }
    ensures out_after { let n = network_of parents.now [] marks.now in
        out.new
        ≡ written (caps_check (member_count n) caps.now then output_check n.arcs out.old)
        out.old (list n.arcs (cap_sum n caps.now)) }
{
    let members = tree::count_members(marks);
    checks::check_caps(members, caps)?;
    checks::check_output(out.len(), parents.len())?;
    let mut vertices = [0u16; MOST_ARCS];
    Ok(list_accepted(parents, marks, caps, &mut vertices[0..members], out))
}

// Writes what the caps of each arc's users add up to. The tree's refusals, 6 and 7 on caps, then 8.
#[tactic(auto, unfolding(answers::specs::CapSums::cap_sums_answer, answers::specs::CapSums::cap_sums_list))]
pub fn list_cap_sums(
    parents: &[u16],
    costs: &[u32],
    marks: &[u16],
    caps: &[u64],
    out: &mut [u64],
) -> Result<u64, Refusal>
    ensures result_value { answer_of result
        ≡ cap_sums_answer (tree_of parents.now costs.now marks.now) caps.now
        out.old }
    ensures out_after { out.new
        ≡ cap_sums_list (tree_of parents.now costs.now marks.now) caps.now
        out.old }
{
    checks::check_tree(parents, costs, marks)?;
    list_in_tree(parents, marks, caps, out)
}
