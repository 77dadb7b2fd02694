// The lines on an accepted job.
ghost use Rattle.std.specs.Prelude.{◌≡◌, ◌+◌, ◌*◌, ◌≤◌, length};
ghost use Rattle.game.specs.Network.{member_count};
ghost use Rattle.game.specs.Tree.{tree_of, network, dead_end_tree};
ghost use Rattle.answer_forms.specs.Answer.{accepted};
ghost use Rattle.answers.specs.Checks.{tree_check};
ghost use Rattle.buffer.specs.Put.{Put};
ghost use Rattle.report_text.specs.Report.{blank, no_floors, cost_text, tree_text, split_text, job_text};

use limits::MOST_ARCS;
use report_lines::{put_audit, put_level, put_members, put_needs};

// `needs` is room for one entry an arc.
fn put_cost(
    parents: &[u16],
    costs: &[u32],
    marks: &[u16],
    needs: &mut [u64],
    out: &mut [u8],
    at: usize,
) -> usize
    requires marks_value { tree_check (tree_of parents.now costs.now marks.now) ≡ accepted }
    requires needs_len { length needs.old ≡ length parents.now }
    requires at_in_bounds { at + 100 ≤ length out.old }
    ensures put { Put out.old at
        (cost_text (tree_of parents.now costs.now marks.now)) out.new result }
    ensures upper_bound { result ≤ at + 100 }
{
    put_needs(out, at, engine::list_needs(parents, costs, marks, needs))
}

// The lines on the tree and the proposal.
fn put_tree(
    parents: &[u16],
    costs: &[u32],
    marks: &[u16],
    proposed: &[i64],
    out: &mut [u8],
    at: usize,
) -> usize
    requires marks_value { tree_check (tree_of parents.now costs.now marks.now) ≡ accepted }
    requires proposed_len { length proposed.now ≡ member_count (network (tree_of parents.now costs.now marks.now)) }
    requires at_in_bounds { at + 22100 ≤ length out.old }
    ensures put { Put out.old at
        (tree_text (tree_of parents.now costs.now marks.now) proposed.now)
        out.new result }
    ensures upper_bound { result ≤ at + 22100 }
{
    let mut needs = [0u64; MOST_ARCS];
    let arcs = parents.len();
    let next = put_cost(parents, costs, marks, &mut needs[0..arcs], out, at);
    let total = engine::check_total(parents, costs, marks, proposed);
    let searched = engine::find_group(parents, costs, marks, proposed);
    put_audit(out, next, proposed.len(), total, searched)
}

// The lines on the two splits. `vertices`, `by_arc` and `shares` are room for one entry a member, all 0.
fn put_splits(
    parents: &[u16],
    costs: &[u32],
    marks: &[u16],
    caps: &[u64],
    floors: &[u64],
    proposed: &[i64],
    vertices: &mut [u16],
    by_arc: &mut [u64],
    shares: &mut [u64],
    out: &mut [u8],
    at: usize,
) -> usize
    requires marks_value { tree_check (tree_of parents.now costs.now marks.now) ≡ accepted }
    requires proposed_len { length proposed.now ≡ member_count (network (tree_of parents.now costs.now marks.now)) }
    requires floors_value { floors.now ≡ no_floors (tree_of parents.now costs.now marks.now) }
    requires vertices_value { vertices.old ≡ blank (tree_of parents.now costs.now marks.now) }
    requires by_arc_value { by_arc.old ≡ blank (tree_of parents.now costs.now marks.now) }
    requires shares_value { shares.old ≡ blank (tree_of parents.now costs.now marks.now) }
    requires proposed_in_bounds { at + 100 + 150 * length proposed.now ≤ length out.old }
    ensures { Put out.old at
        (split_text (tree_of parents.now costs.now marks.now) caps.now
        proposed.now) out.new result }
{
    // The tree is accepted and the lists have their lengths, so neither refuses.
    let _ = engine::list_members(parents, costs, marks, vertices);
    let _ = engine::split_by_arc(parents, costs, marks, by_arc);
    let level = engine::split_level(parents, costs, marks, caps, floors, shares);
    let next = put_level(out, at, level);
    put_members(out, next, level, vertices, proposed, by_arc, shares)
}

// All lines, by the members' marks.
fn put_marked(
    parents: &[u16],
    costs: &[u32],
    marks: &[u16],
    caps: &[u64],
    proposed: &[i64],
    out: &mut [u8],
) -> usize
    requires marks_value { tree_check (tree_of parents.now costs.now marks.now) ≡ accepted }
    requires proposed_len { length proposed.now ≡ member_count (network (tree_of parents.now costs.now marks.now)) }
    requires in_bounds { 190000 ≤ length out.old }
    ensures { Put out.old 0
        (job_text (tree_of parents.now costs.now marks.now) caps.now
        proposed.now) out.new result }
{
    let members = proposed.len();
    let floors = [0u64; MOST_ARCS];
    let mut vertices = [0u16; MOST_ARCS];
    let mut by_arc = [0u64; MOST_ARCS];
    let mut shares = [0u64; MOST_ARCS];
    let next = put_tree(parents, costs, marks, proposed, out, 0);
    put_splits(
        parents,
        costs,
        marks,
        caps,
        &floors[0..members],
        proposed,
        &mut vertices[0..members],
        &mut by_arc[0..members],
        &mut shares[0..members],
        out,
        next,
    )
}

// The lists are those of a job that was read; its members are the dead ends.
pub fn put_job(
    parents: &[u16],
    costs: &[u32],
    caps: &[u64],
    proposed: &[i64],
    out: &mut [u8],
) -> usize
    requires costs_value { tree_check (dead_end_tree parents.now costs.now) ≡ accepted }
    requires proposed_len { length proposed.now ≡ member_count (network (dead_end_tree parents.now costs.now)) }
    requires in_bounds { 190000 ≤ length out.old }
    ensures { Put out.old 0
        (job_text (dead_end_tree parents.now costs.now) caps.now
        proposed.now) out.new result }
{
    let arcs = parents.len();
    let mut marks = [0u16; MOST_ARCS];
    // It refuses nothing: the tree is accepted.
    let _ = engine::mark_dead_ends(parents, costs, &mut marks[0..arcs]);
    put_marked(parents, costs, &marks[0..arcs], caps, proposed, out)
}
