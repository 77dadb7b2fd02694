// The needs of all arcs in a lent list; the whole cost and the number of members.
ghost use Rattle.std.specs.Prelude.{◌≡◌, length};
ghost use Rattle.basics.specs.Sum.{list};
ghost use Rattle.game.specs.Network.{need, whole_cost, member_count};
ghost use Rattle.game.specs.Tree.{tree_of, network_of};
ghost use Rattle.answer_forms.specs.Answer.{answer, written};
ghost use Rattle.answers.specs.Checks.{output_check};
ghost use Rattle.answers.specs.Needs.{needs_answer, needs_list};
ghost use Rattle.tree.specs.Passes.{Sound, Costed, Marked};
ghost use Rattle.engine.specs.Outcomes.{needs_of};

use answer_forms::Refusal;
use limits::MOST_ARCS;

// The whole cost, and the number of members.
#[derive(Clone, Copy, Debug, PartialEq, Eq)]
pub struct NeedsFound {
    pub whole: u64,
    pub members: usize,
}

// The tree is accepted and its members are marked. 8.
fn list_in_tree(
    parents: &[u16],
    costs: &[u32],
    marks: &[u16],
    out: &mut [u64],
) -> Result<NeedsFound, Refusal>
    requires sound { Sound parents.now }
    requires costed { Costed parents.now costs.now }
    requires marked { Marked parents.now marks.now }
    ensures result_value { let n = network_of parents.now costs.now marks.now in
        needs_of result ≡ answer (output_check (length parents.now) out.old)
        (record { whole = whole_cost n; members = member_count n }) }
    ensures out_after { let n = network_of parents.now costs.now marks.now in
        out.new ≡ written (output_check (length parents.now) out.old) out.old
        (list (length parents.now) (need n)) }
{
    checks::check_output(out.len(), parents.len())?;
    let members = tree::count_members(marks);
    let whole = tree::write_needs(parents, costs, out);
    Ok(NeedsFound { whole, members })
}

// Writes the need of each arc. The tree's refusals, then 8.
#[tactic(auto, unfolding(answers::specs::Needs::needs_answer, answers::specs::Needs::needs_list))]
pub fn list_needs(
    parents: &[u16],
    costs: &[u32],
    marks: &[u16],
    out: &mut [u64],
) -> Result<NeedsFound, Refusal>
    ensures result_value { needs_of result
        ≡ needs_answer (tree_of parents.now costs.now marks.now) out.old }
    ensures out_after { out.new
        ≡ needs_list (tree_of parents.now costs.now marks.now) out.old }
{
    checks::check_tree(parents, costs, marks)?;
    let m = parents.len();
    let mut counted = [0u32; MOST_ARCS];
    tree::write_counted(parents, costs, marks, &mut counted[0..m]);
    list_in_tree(parents, &counted[0..m], marks, out)
}
