// Conversions between the versions: the public entries that make of a job one of the other version.
ghost use Rattle.std.specs.Prelude.{◌≡◌, ◌+◌, ◌*◌, ◌≤◌, length};
ghost use Rattle.buffer.specs.Put.{Put};
ghost use Rattle.game.specs.Tree.{dead_ends};
ghost use Rattle.answer_forms.specs.Answer.{accepted, answer};
ghost use Rattle.answer_forms.specs.Checked.{answer_of};
ghost use Rattle.job_bytes.specs.Versions.{member_width};
ghost use Rattle.job_bytes.specs.JobBytes.{filled_with, job_bytes};
ghost use Rattle.job_bytes.specs.Lists.{contents_of};
ghost use Rattle.job_bytes.specs.Format.{arc_offset, job_arcs, job_members};
ghost use Rattle.job_bytes.specs.declared.version.Version.TheVariants.{Two};
ghost use Rattle.job_checks.specs.JobCheck.{job_check, space_check, job_output};
ghost use Rattle.job2.specs.Converter.{other, fillers_in, in_version, to2_answer, to2_output, to1_answer, to1_output};
ghost use Rattle.job2.specs.Inner.{Ready};

use crate::back::check_back;
use answer_forms::Refusal;
use job_bytes::{Lists, Trailer, Version};
use job_checks::{check_job, check_space, read_contents};
use limits::MOST_ARCS;

#[tactic(auto, unfolding(crate::specs::Converter::other))]
fn other_version(version: Version) -> Version
    ensures { result ≡ other version }
{
    match version {
        Version::One => Version::Two,
        Version::Two => Version::One,
    }
}

// The length of a job with as many rows in a version.
fn length_in(version: Version, bytes: &[u8]) -> usize
    requires { 16 ≤ length bytes.now }
    ensures { result ≡ arc_offset bytes.now + 8 * job_arcs bytes.now
        + member_width version * job_members bytes.now + 16 }
{
    let t = Trailer::read(bytes);
    t.arc_offset + 8 * t.arcs + (16 + version.floor_width()) * t.members + 16
}

// The job of version 2 with these contents, every dead end marked, from the first byte on.
fn put_marked(out: &mut [u8], lists: &Lists<'_>) -> usize
    requires { Ready Two (contents_of lists.now) (length out.old) }
    ensures { Put out.old 0
        (job_bytes Two (filled_with (dead_ends lists.now.parents.now) (contents_of lists.now)))
        out.new result }
{
    let n = lists.parents.len();
    let mut marks = [0u16; MOST_ARCS];
    // An accepted tree is not refused here.
    let _ = engine::mark_dead_ends(lists.parents, lists.costs, &mut marks[0..n]);
    job_bytes::put_job(out, Version::Two, lists, &marks[0..n])
}

// The job of a version with these contents, from the first byte on.
#[tactic(auto, unfolding(crate::specs::Converter::fillers_in))]
fn put_contents(version: Version, out: &mut [u8], lists: &Lists<'_>) -> usize
    requires { Ready version (contents_of lists.now) (length out.old) }
    ensures { Put out.old 0
        (job_bytes version (filled_with (fillers_in version lists.now.parents.now)
        (contents_of lists.now)))
        out.new result }
{
    match version {
        Version::One => job_bytes::put_plain(out, lists),
        Version::Two => put_marked(out, lists),
    }
}

// A job of the other version in this one, from the first byte on.
fn put_in(version: Version, bytes: &[u8], out: &mut [u8]) -> usize
    requires bytes_value { job_check (other version) bytes.now ≡ accepted }
    requires bytes_in_bounds { length (in_version version bytes.now) ≤ length out.old }
    ensures { Put out.old 0 (in_version version bytes.now) out.new result }
{
    let mut parents = [0u16; MOST_ARCS];
    let mut costs = [0u32; MOST_ARCS];
    let mut caps = [0u64; MOST_ARCS];
    let mut proposals = [0i64; MOST_ARCS];
    let from = other_version(version);
    let t = read_contents(
        from,
        bytes,
        &mut parents,
        &mut costs,
        &mut caps,
        &mut proposals,
    );
    let lists = Lists {
        note: &bytes[0..t.arc_offset],
        parents: &parents[0..t.arcs],
        costs: &costs[0..t.arcs],
        caps: &caps[0..t.members],
        proposals: &proposals[0..t.members],
    };
    put_contents(version, out, &lists)
}

// 20, then the job of the other version in this one, in the front of `out`.
fn write_in(version: Version, bytes: &[u8], out: &mut [u8]) -> Result<usize, Refusal>
    requires { job_check (other version) bytes.now ≡ accepted }
    ensures result_value { answer_of result
        ≡ answer (space_check (length out.old) (length (in_version version bytes.now)))
        (length (in_version version bytes.now)) }
    ensures out_after { out.new
        ≡ job_output (space_check (length out.old) (length (in_version version bytes.now)))
        (in_version version bytes.now) out.old }
{
    let length = length_in(version, bytes);
    check_space(out.len(), length)?;
    put_in(version, bytes, out);
    Ok(length)
}

// Writes a job of version 1 as one of version 2 to the front of `out`, whose other bytes stay: every dead end is
// marked, the floors are 0. Version 1's checks but 10, then 20.
#[tactic(auto, unfolding(crate::specs::Converter::to2_check, crate::specs::Converter::to2_answer, crate::specs::Converter::to2_output))]
pub fn job_to_2(bytes: &[u8], out: &mut [u8]) -> Result<usize, Refusal>
    ensures result_value { answer_of result ≡ to2_answer bytes.now out.old }
    ensures out_after { out.new ≡ to2_output bytes.now out.old }
{
    check_job(Version::One, bytes)?;
    write_in(Version::Two, bytes, out)
}

// Writes a job of version 2 as one of version 1 to the front of `out`, whose other bytes stay. Version 2's checks but
// 10, then 29, 30 and 20.
#[tactic(auto, unfolding(crate::specs::Converter::to1_check, crate::specs::Converter::to1_answer, crate::specs::Converter::to1_output))]
pub fn job_to_1(bytes: &[u8], out: &mut [u8]) -> Result<usize, Refusal>
    ensures result_value { answer_of result ≡ to1_answer bytes.now out.old }
    ensures out_after { out.new ≡ to1_output bytes.now out.old }
{
    check_back(bytes)?;
    write_in(Version::One, bytes, out)
}
