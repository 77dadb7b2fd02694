// The split in cost classes: each class by arc, by itself.
ghost use Rattle.std.specs.Prelude.{◌≡◌, [], ◌++◌, ◌*◌, length, replicate};
ghost use Rattle.game.specs.Network.{member_count};
ghost use Rattle.game.specs.Tree.{network_of};
ghost use Rattle.answer_forms.specs.Answer.{accepted, value};
ghost use Rattle.answers.specs.Classes.{classed_of, classed_check, joined, class_shares, paid_in, cost_in, by_class};
ghost use Rattle.answers.specs.Classes.{classes_answer, classes_list, classes_totals};
ghost use Rattle.answer_forms.specs.Checked.{answer_of};

use answer_forms::Refusal;
use limits::MOST_ARCS;

// The answer, and beside it the totals paid in each of four classes, then those of cost; 0 for a class that is not in
// use, and beside a refusal.
#[derive(Clone, Copy, Debug, PartialEq, Eq)]
pub struct ClassSplit {
    pub answer: Result<usize, Refusal>,
    pub totals: [u64; 8],
}

fn without_totals(refusal: Refusal) -> ClassSplit
    ensures answer_value { result.answer ≡ Err refusal }
    ensures totals_value { result.totals ≡ replicate 8 0 }
{
    ClassSplit {
        answer: Err(refusal),
        totals: [0; 8],
    }
}

// 32, the tree's refusals, then 8; the number of members.
#[tactic(auto, unfolding(answers::specs::Classes::classes_answer))]
fn check_lists(
    parents: &[u16],
    costs: &[u32],
    marks: &[u16],
    classes: usize,
    out: &[u64],
) -> Result<usize, Refusal>
    ensures { answer_of result
        ≡ classes_answer (classed_of parents.now costs.now marks.now classes)
        out.now }
{
    cost_classes::check_classed(parents, costs, marks, classes)?;
    let members = tree::count_members(marks);
    checks::check_output(out.len(), classes * members)?;
    Ok(members)
}

// The lists are accepted, and `vertices` is room for one entry a member.
fn split_accepted(
    parents: &[u16],
    costs: &[u32],
    marks: &[u16],
    classes: usize,
    vertices: &mut [u16],
    out: &mut [u64],
) -> ClassSplit
    requires classes_value { classed_check (classed_of parents.now costs.now marks.now classes) ≡ accepted }
    requires vertices_len { length vertices.old ≡ member_count (network_of parents.now [] marks.now) }
    requires out_len { length out.old ≡ classes * member_count (network_of parents.now [] marks.now) }
    ensures answer_value { answer_of result.answer
        ≡ value (member_count (network_of parents.now [] marks.now)) }
    ensures totals_value { let w = classed_of parents.now costs.now marks.now classes in
        result.totals ≡ by_class classes (paid_in w) ++ by_class classes (cost_in w) }
    ensures out_after { let w = classed_of parents.now costs.now marks.now classes in
        out.new ≡ joined classes (class_shares w) }
{
    tree::write_members(marks, vertices);
    let members = vertices.len();
    let totals = cost_classes::write_classes(parents, costs, marks, classes, vertices, out);
    ClassSplit {
        answer: Ok(members),
        totals,
    }
}

// Writes one share a member and class, class after class. 32, the tree's refusals, then 8.
#[tactic(auto, unfolding(answers::specs::Classes::classes_answer, answers::specs::Classes::classes_list, answers::specs::Classes::classes_totals))]
pub fn split_classes(
    parents: &[u16],
    costs: &[u32],
    marks: &[u16],
    classes: usize,
    out: &mut [u64],
) -> ClassSplit
    ensures answer_value { answer_of result.answer
        ≡ classes_answer (classed_of parents.now costs.now marks.now classes)
        out.old }
    ensures totals_value { result.totals
        ≡ classes_totals (classed_of parents.now costs.now marks.now classes)
        out.old }
    ensures out_after { out.new
        ≡ classes_list (classed_of parents.now costs.now marks.now classes)
        out.old }
{
    match check_lists(parents, costs, marks, classes, out) {
        Ok(members) => {
            let mut vertices = [0u16; MOST_ARCS];
            split_accepted(
                parents,
                costs,
                marks,
                classes,
                &mut vertices[0..members],
                out,
            )
        }
        Err(refusal) => without_totals(refusal),
    }
}
