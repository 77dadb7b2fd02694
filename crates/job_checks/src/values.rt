// The values of a job: the engine's checks on what the rows hold.
// A check that answers what its caller does is opened by let else, the form that document 01 names for the reader; the
// count of the tree's members answers a number besides, and is opened by `?`.
ghost use Rattle.std.specs.Prelude.{◌≡◌, not, ◌+◌, ◌*◌, ◌≤◌, length, eqb};
ghost use Rattle.basics.specs.Sum.{entries};
ghost use Rattle.limits.specs.Limits.{most_arcs};
ghost use Rattle.game.specs.Tree.{tree_of};
ghost use Rattle.answer_forms.specs.Answer.{accepted, fault, ◌then◌};
ghost use Rattle.answers.specs.Members.{member_count_answer};
ghost use Rattle.answers.specs.Checks.{proposal_check};
ghost use Rattle.answers.specs.Level.{caps_check, floors_check, limits_check};
ghost use Rattle.answer_forms.specs.Checked.{check_of, answer_of};
ghost use Rattle.job_bytes.specs.Versions.{member_width};
ghost use Rattle.job_bytes.specs.Format.{parent_at, filler_at, cost_at, cap_at, proposal_at, floor_at};
ghost use Rattle.job_bytes.specs.declared.version.Version.TheVariants.{Two};
ghost use Rattle.job_form.specs.Inner.{Layout};
ghost use Rattle.job_checks.specs.JobCheck.{marks_of, shares_of, values_check};

use crate::members::dead_end_members;
use answer_forms::{Reason, Refusal};
use job_bytes::{Trailer, Version, read_column};
use limits::MOST_ARCS;

// The members of the tree with these parents and costs, whose marks are the fillers of the arc rows at an offset.
fn marked_members(
    bytes: &[u8],
    offset: usize,
    parents: &[u16],
    costs: &[u32],
) -> Result<usize, Refusal>
    requires parents_in_bounds { offset + 8 * length parents.now ≤ length bytes.now }
    requires parents_len_bound { length parents.now ≤ most_arcs }
    ensures { answer_of result
        ≡ member_count_answer (tree_of parents.now costs.now
        (entries (length parents.now) (filler_at bytes.now offset))) }
{
    let n = parents.len();
    let mut marks = [0u16; MOST_ARCS];
    read_column(bytes, 2, offset + 2, 8, n, &mut marks);
    engine::count_members(parents, costs, &marks[0..n])
}

// The members of the tree in the arc rows at an offset. With too many rows nothing is read: 1.
fn count_members(
    version: Version,
    bytes: &[u8],
    offset: usize,
    arcs: usize,
) -> Result<usize, Refusal>
    requires { offset + 8 * arcs ≤ length bytes.now }
    ensures { answer_of result
        ≡ member_count_answer (tree_of
        (entries arcs (parent_at bytes.now offset))
        (entries arcs (cost_at bytes.now offset))
        (marks_of version (entries arcs (parent_at bytes.now offset))
        (entries arcs (filler_at bytes.now offset)))) }
{
    if MOST_ARCS < arcs {
        return Err(Reason::ArcCount.at(0));
    }
    let mut parents = [0u16; MOST_ARCS];
    let mut costs = [0u32; MOST_ARCS];
    read_column(bytes, 2, offset, 8, arcs, &mut parents);
    read_column(bytes, 4, offset + 4, 8, arcs, &mut costs);
    match version {
        Version::One => dead_end_members(&parents[0..arcs], &costs[0..arcs]),
        Version::Two => marked_members(bytes, offset, &parents[0..arcs], &costs[0..arcs]),
    }
}

// 15.
fn check_count(rows: usize, members: usize) -> Result<(), Refusal>
    ensures { check_of result ≡ fault (not (eqb rows members)) 15 0 }
{
    if rows == members {
        Ok(())
    } else {
        Err(Reason::JobMembers.at(0))
    }
}

// 7 on the proposals of the member rows at an offset.
fn check_proposals(
    version: Version,
    bytes: &[u8],
    offset: usize,
    members: usize,
) -> Result<(), Refusal>
    requires members_in_bounds { offset + member_width version * members ≤ length bytes.now }
    requires members_le_most_arcs { members ≤ most_arcs }
    ensures { check_of result
        ≡ proposal_check members (entries members (proposal_at version bytes.now offset)) }
{
    let width = 16 + version.floor_width();
    let mut proposals = [0i64; MOST_ARCS];
    read_column(bytes, 8, offset + 8, width, members, &mut proposals);
    engine::check_proposal(members, &proposals[0..members])
}

// 7 on these caps, then on the floors of version 2's member rows at an offset, and 27.
fn check_limits(bytes: &[u8], offset: usize, members: usize, caps: &[u64]) -> Result<(), Refusal>
    requires members_in_bounds { offset + 24 * members ≤ length bytes.now }
    requires members_le_most_arcs { members ≤ most_arcs }
    ensures { check_of result
        ≡ limits_check members caps.now (entries members (floor_at Two bytes.now offset)) }
{
    let mut floors = [0u64; MOST_ARCS];
    read_column(bytes, 8, offset + 16, 24, members, &mut floors);
    engine::check_limits(members, caps, &floors[0..members])
}

// 7 on the floors of the member rows at an offset, then 27, where the caps are accepted. In version 1 there are none.
fn check_floors(
    version: Version,
    bytes: &[u8],
    offset: usize,
    members: usize,
    caps: &[u64],
) -> Result<(), Refusal>
    requires members_in_bounds { offset + member_width version * members ≤ length bytes.now }
    requires members_le_most_arcs { members ≤ most_arcs }
    requires caps_value { caps_check members caps.now ≡ accepted }
    ensures { check_of result
        ≡ (caps_check members (entries members (floor_at version bytes.now offset))
        then floors_check members caps.now
        (entries members (floor_at version bytes.now offset))) }
{
    match version {
        Version::One => Ok(()),
        Version::Two => check_limits(bytes, offset, members, caps),
    }
}

// 7 on caps, on proposals and on floors, then 27, of the member rows at an offset.
fn check_shares(
    version: Version,
    bytes: &[u8],
    offset: usize,
    members: usize,
) -> Result<(), Refusal>
    requires members_in_bounds { offset + member_width version * members ≤ length bytes.now }
    requires members_le_most_arcs { members ≤ most_arcs }
    ensures { check_of result
        ≡ shares_of members
        (entries members (cap_at version bytes.now offset))
        (entries members (proposal_at version bytes.now offset))
        (entries members (floor_at version bytes.now offset)) }
{
    let width = 16 + version.floor_width();
    let mut caps = [0u64; MOST_ARCS];
    read_column(bytes, 8, offset, width, members, &mut caps);
    let upper = engine::check_caps(members, &caps[0..members]);
    let Ok(()) = upper else {
        return upper;
    };
    let shares = check_proposals(version, bytes, offset, members);
    let Ok(()) = shares else {
        return shares;
    };
    check_floors(version, bytes, offset, members, &caps[0..members])
}

// 1, 3, 4, 17 and 18, then 15, then 7 and 27.
#[tactic(auto, unfolding(crate::specs::JobCheck::values_check))]
pub fn check_values(version: Version, bytes: &[u8]) -> Result<(), Refusal>
    requires { Layout version bytes.now }
    ensures { check_of result ≡ values_check version bytes.now }
{
    let t = Trailer::read(bytes);
    let members = count_members(version, bytes, t.arc_offset, t.arcs)?;
    let rows = check_count(t.members, members);
    let Ok(()) = rows else {
        return rows;
    };
    check_shares(version, bytes, t.member_offset, members)
}
