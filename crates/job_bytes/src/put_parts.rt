// The parts of a job, written one after the other.
ghost use Rattle.std.specs.Prelude.{◌≡◌, ◌+◌, ◌*◌, ◌≤◌, length, replicate};
ghost use Rattle.buffer.specs.Put.{Put};
ghost use Rattle.job_bytes.specs.Versions.{version_number, member_width};
ghost use Rattle.limits.specs.Limits.{most_arcs};
ghost use Rattle.job_bytes.specs.JobBytes.{filled_with, plain, arc_rows, member_rows, trailer, job_bytes};
ghost use Rattle.job_bytes.specs.declared.version.Version.TheVariants.{One};
ghost use Rattle.job_bytes.specs.Inner.{Matched};
ghost use Rattle.job_bytes.specs.Lists.{contents_of};

use crate::lists::Lists;
use crate::put_rows::{put_arc, put_member, put_number};
use crate::trailer::Trailer;
use crate::version::Version;
use limits::MOST_ARCS;

// A row an arc.
fn put_arcs(out: &mut [u8], at: usize, parents: &[u16], fillers: &[u16], costs: &[u32]) -> usize
    requires fillers_len { length fillers.now ≡ length parents.now }
    requires costs_len { length costs.now ≡ length parents.now }
    requires parents_in_bounds { at + 8 * length parents.now ≤ length out.old }
    ensures put { Put out.old at
        (arc_rows parents.now fillers.now costs.now) out.new result }
    ensures value { result ≡ at + 8 * length parents.now }
{
    let mut next = at;
    for i in 0..parents.len() {
        next = put_arc(out, next, parents[i], fillers[i], costs[i]);
    }
    next
}

// A row a member, with a floor of 0.
fn put_members(
    out: &mut [u8],
    at: usize,
    version: Version,
    caps: &[u64],
    proposals: &[i64],
) -> usize
    requires proposals_len { length proposals.now ≡ length caps.now }
    requires caps_in_bounds { at + member_width version * length caps.now ≤ length out.old }
    ensures put { Put out.old at
        (member_rows version caps.now proposals.now (replicate (length caps.now) 0))
        out.new result }
    ensures value { result ≡ at + member_width version * length caps.now }
{
    let mut next = at;
    for j in 0..caps.len() {
        next = put_member(out, next, version, caps[j], proposals[j], 0);
    }
    next
}

fn put_trailer(out: &mut [u8], at: usize, fields: Trailer, version: Version) -> usize
    requires { at + 16 ≤ length out.old }
    ensures { Put out.old at
        (trailer fields.arc_offset fields.member_offset fields.arcs fields.members
        (version_number version))
        out.new result }
{
    let a = put_number(out, at, 4, fields.arc_offset as u64);
    let b = put_number(out, a, 4, fields.member_offset as u64);
    let c = put_number(out, b, 2, fields.arcs as u64);
    let d = put_number(out, c, 2, fields.members as u64);
    let e = put_number(out, d, 2, version.number());
    buffer::put(out, e, &[0x54, 0x4A])
}

// The job with these contents and fillers, from the first byte on; its floors are 0.
pub fn put_job(out: &mut [u8], version: Version, lists: &Lists<'_>, fillers: &[u16]) -> usize
    requires cases { Matched lists.now.parents.now fillers.now lists.now.costs.now lists.now.caps.now
        lists.now.proposals.now }
    requires caps_in_bounds { length lists.now.note.now + 8 * length lists.now.parents.now
        + member_width version * length lists.now.caps.now + 16 ≤ length out.old }
    ensures { Put out.old 0
        (job_bytes version (filled_with fillers.now (contents_of lists.now))) out.new result }
{
    let arc_offset = buffer::put(out, 0, lists.note);
    let member_offset = put_arcs(out, arc_offset, lists.parents, fillers, lists.costs);
    let end = put_members(out, member_offset, version, lists.caps, lists.proposals);
    let fields = Trailer {
        arc_offset,
        member_offset,
        arcs: lists.parents.len(),
        members: lists.caps.len(),
    };
    put_trailer(out, end, fields, version)
}

// The job of version 1 with these contents, from the first byte on.
pub fn put_plain(out: &mut [u8], lists: &Lists<'_>) -> usize
    requires parents_len_bound { length lists.now.parents.now ≤ most_arcs }
    requires costs_len { length lists.now.costs.now ≡ length lists.now.parents.now }
    requires proposals_len { length lists.now.proposals.now ≡ length lists.now.caps.now }
    requires caps_in_bounds { length lists.now.note.now + 8 * length lists.now.parents.now
        + member_width One * length lists.now.caps.now + 16 ≤ length out.old }
    ensures { Put out.old 0 (job_bytes One (plain (contents_of lists.now))) out.new result }
{
    let n = lists.parents.len();
    let fillers = [0u16; MOST_ARCS];
    put_job(out, Version::One, lists, &fillers[..n])
}
