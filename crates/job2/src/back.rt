// What keeps a job of version 2 from version 1: a dead end without a mark, a floor above 0.
ghost use Rattle.std.specs.Prelude.{◌≡◌, ◌&&◌, not, length, eqb, ltb};
ghost use Rattle.game.specs.Tree.{dead_ends, dead_end_tree};
ghost use Rattle.answers.specs.Checks.{tree_check};
ghost use Rattle.answer_forms.specs.Answer.{accepted, fault};
ghost use Rattle.answer_forms.specs.Checked.{check_of};
ghost use Rattle.job_bytes.specs.Format.{job_arcs, job_members, job_parents, job_fillers, job_floors};
ghost use Rattle.job_bytes.specs.declared.version.Version.TheVariants.{Two};
ghost use Rattle.job_checks.specs.JobCheck.{job_check};
ghost use Rattle.job2.specs.Converter.{unmarked_check, floored_check, back_check};

use answer_forms::{Reason, Refusal};
use job_bytes::{Trailer, Version, read_column};
use limits::MOST_ARCS;

// 29 at vertex k.
fn check_vertex(k: usize, end: u16, mark: u16) -> Result<(), Refusal>
    ensures { check_of result ≡ fault (eqb end 1 && not (eqb mark 1)) 29 k }
{
    if end == 1 && mark != 1 {
        return Err(Reason::UnmarkedDeadEnd.at(k));
    }
    Ok(())
}

// 29 vertex by vertex, by the marks of the dead ends.
#[tactic(auto, unfolding(crate::specs::Converter::unmarked_check))]
fn check_ends(ends: &[u16], marks: &[u16]) -> Result<(), Refusal>
    requires { length marks.now ≡ length ends.now }
    ensures { check_of result
        ≡ unmarked_check ends.now marks.now (length ends.now) }
{
    for i in 0..ends.len() {
        check_vertex(i + 1, ends[i], marks[i])?;
    }
    Ok(())
}

// 29 of a tree with these marks.
fn check_marked(parents: &[u16], costs: &[u32], marks: &[u16]) -> Result<(), Refusal>
    requires costs_value { tree_check (dead_end_tree parents.now costs.now) ≡ accepted }
    requires marks_len { length marks.now ≡ length parents.now }
    ensures { check_of result
        ≡ unmarked_check (dead_ends parents.now) marks.now (length parents.now) }
{
    let n = parents.len();
    let mut ends = [0u16; MOST_ARCS];
    // An accepted tree is not refused here.
    let _ = engine::mark_dead_ends(parents, costs, &mut ends[0..n]);
    check_ends(&ends[0..n], marks)
}

// 29 of a job.
fn check_marks(bytes: &[u8]) -> Result<(), Refusal>
    requires { job_check Two bytes.now ≡ accepted }
    ensures { check_of result
        ≡ unmarked_check (dead_ends (job_parents bytes.now)) (job_fillers bytes.now)
        (job_arcs bytes.now) }
{
    let t = Trailer::read(bytes);
    let n = t.arcs;
    let mut parents = [0u16; MOST_ARCS];
    let mut marks = [0u16; MOST_ARCS];
    let mut costs = [0u32; MOST_ARCS];
    read_column(bytes, 2, t.arc_offset, 8, n, &mut parents);
    read_column(bytes, 2, t.arc_offset + 2, 8, n, &mut marks);
    read_column(bytes, 4, t.arc_offset + 4, 8, n, &mut costs);
    check_marked(&parents[0..n], &costs[0..n], &marks[0..n])
}

// 30 at member j.
fn check_floor(j: usize, floor: u64) -> Result<(), Refusal>
    ensures { check_of result ≡ fault (ltb 0 floor) 30 j }
{
    if 0 < floor {
        return Err(Reason::FloorAboveZero.at(j));
    }
    Ok(())
}

// 30 member by member.
#[tactic(auto, unfolding(crate::specs::Converter::floored_check))]
fn check_each(floors: &[u64]) -> Result<(), Refusal>
    ensures { check_of result ≡ floored_check floors.now (length floors.now) }
{
    for (j, floor) in floors.iter().enumerate() {
        check_floor(j, *floor)?;
    }
    Ok(())
}

// 30 of a job.
fn check_floors(bytes: &[u8]) -> Result<(), Refusal>
    requires { job_check Two bytes.now ≡ accepted }
    ensures { check_of result
        ≡ floored_check (job_floors Two bytes.now) (job_members bytes.now) }
{
    let t = Trailer::read(bytes);
    let n = t.members;
    let mut floors = [0u64; MOST_ARCS];
    read_column(bytes, 8, t.member_offset + 16, 24, n, &mut floors);
    check_each(&floors[0..n])
}

// Version 2's checks but 10, then 29 and 30.
#[tactic(auto, unfolding(crate::specs::Converter::back_check))]
pub fn check_back(bytes: &[u8]) -> Result<(), Refusal>
    ensures { check_of result ≡ back_check bytes.now }
{
    job_checks::check_job(Version::Two, bytes)?;
    check_marks(bytes)?;
    check_floors(bytes)
}
