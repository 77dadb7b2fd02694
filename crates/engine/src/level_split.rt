// The level split under caps and floors.
ghost use Rattle.std.specs.Prelude.{◌≡◌, length};
ghost use Rattle.game.specs.Network.{member_count};
ghost use Rattle.game.specs.Tree.{tree_of, network_of};
ghost use Rattle.answer_forms.specs.Answer.{accepted, ◌then◌};
ghost use Rattle.answers.specs.Checks.{output_check};
ghost use Rattle.answers.specs.Level.{caps_check, limits_check, split_from, level_or, list_after, level_shares};
ghost use Rattle.answers.specs.Level.{level_answer, level_list};
ghost use Rattle.tree.specs.Passes.{Sound, Costed, Marked};
ghost use Rattle.engine.specs.Outcomes.{level_of};

use level::LevelRefusal;
use limits::MOST_ARCS;

// The lists are accepted; `vertices` is room for one entry a member. 9 and 28.
fn split_accepted(
    parents: &[u16],
    costs: &[u32],
    marks: &[u16],
    caps: &[u64],
    floors: &[u64],
    vertices: &mut [u16],
    out: &mut [u64],
) -> Result<usize, LevelRefusal>
    requires sound { Sound parents.now }
    requires costed { Costed parents.now costs.now }
    requires marked { Marked parents.now marks.now }
    requires caps_value { caps_check (member_count (network_of parents.now costs.now marks.now)) caps.now ≡ accepted }
    requires floors_value { caps_check (member_count (network_of parents.now costs.now marks.now)) floors.now ≡ accepted }
    requires vertices_len { length vertices.old ≡ member_count (network_of parents.now costs.now marks.now) }
    requires out_len { length out.old ≡ member_count (network_of parents.now costs.now marks.now) }
    ensures result_value { let n = network_of parents.now costs.now marks.now in
        level_of result ≡ split_from n caps.now floors.now (length parents.now) }
    ensures out_after { let n = network_of parents.now costs.now marks.now in
        out.new
        ≡ list_after (level_of result) out.old (level_shares n caps.now floors.now) }
{
    tree::write_members(marks, vertices);
    let members = vertices.len();
    level::write_level(parents, costs, vertices, caps, floors, out)?;
    Ok(members)
}

// The tree is accepted and its members are marked. 6 and 7 on caps and on floors, 27, 8, then 9 and 28.
fn split_in_tree(
    parents: &[u16],
    costs: &[u32],
    marks: &[u16],
    caps: &[u64],
    floors: &[u64],
    out: &mut [u64],
) -> Result<usize, LevelRefusal>
    requires sound { Sound parents.now }
    requires costed { Costed parents.now costs.now }
    requires marked { Marked parents.now marks.now }
    ensures result_value { let n = network_of parents.now costs.now marks.now in
        level_of result
        ≡ level_or (limits_check (member_count n) caps.now floors.now
        then output_check (member_count n) out.old)
        (split_from n caps.now floors.now (length parents.now)) }
    ensures out_after { let n = network_of parents.now costs.now marks.now in
        out.new
        ≡ list_after (level_of result) out.old (level_shares n caps.now floors.now) }
{
    let members = tree::count_members(marks);
    checks::check_limits(members, caps, floors)?;
    checks::check_output(out.len(), members)?;
    let mut vertices = [0u16; MOST_ARCS];
    split_accepted(
        parents,
        costs,
        marks,
        caps,
        floors,
        &mut vertices[0..members],
        out,
    )
}

// Writes one share a member. The tree's refusals, 6 and 7 on caps and on floors, 27, 8, then 9 and 28.
#[tactic(auto, unfolding(answers::specs::Level::level_answer, answers::specs::Level::level_list))]
pub fn split_level(
    parents: &[u16],
    costs: &[u32],
    marks: &[u16],
    caps: &[u64],
    floors: &[u64],
    out: &mut [u64],
) -> Result<usize, LevelRefusal>
    ensures result_value { level_of result
        ≡ level_answer (tree_of parents.now costs.now marks.now) caps.now
        floors.now out.old }
    ensures out_after { out.new
        ≡ level_list (tree_of parents.now costs.now marks.now) caps.now
        floors.now out.old }
{
    checks::check_tree(parents, costs, marks)?;
    let m = parents.len();
    let mut counted = [0u32; MOST_ARCS];
    tree::write_counted(parents, costs, marks, &mut counted[0..m]);
    split_in_tree(parents, &counted[0..m], marks, caps, floors, out)
}
