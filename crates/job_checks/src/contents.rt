// What jobs of both versions hold, read into the front of four lists; their other entries stay.
ghost use Rattle.std.specs.Prelude.{◌≡◌, ◌++◌, length, drop};
ghost use Rattle.job_bytes.specs.Format.{job_arcs, job_members, job_parents, job_costs, job_caps, job_proposals};
ghost use Rattle.job_bytes.specs.Inner.{TrailerOf};
ghost use Rattle.job_form.specs.Inner.{Layout};
ghost use Rattle.job_checks.specs.Inner.{Room};

use job_bytes::{Trailer, Version, read_column};

pub fn read_contents(
    version: Version,
    bytes: &[u8],
    parents: &mut [u16],
    costs: &mut [u32],
    caps: &mut [u64],
    proposals: &mut [i64],
) -> Trailer
    requires layout { Layout version bytes.now }
    requires room { Room bytes.now (length parents.old) (length costs.old) (length caps.old)
        (length proposals.old) }
    ensures trailer_of { TrailerOf bytes.now result.arc_offset result.member_offset result.arcs result.members }
    ensures parents_after { parents.new
        ≡ job_parents bytes.now ++ drop (job_arcs bytes.now) parents.old }
    ensures costs_after { costs.new
        ≡ job_costs bytes.now ++ drop (job_arcs bytes.now) costs.old }
    ensures caps_after { caps.new
        ≡ job_caps version bytes.now ++ drop (job_members bytes.now) caps.old }
    ensures proposals_after { proposals.new
        ≡ job_proposals version bytes.now
        ++ drop (job_members bytes.now) proposals.old }
{
    let t = Trailer::read(bytes);
    let width = 16 + version.floor_width();
    read_column(bytes, 2, t.arc_offset, 8, t.arcs, parents);
    read_column(bytes, 4, t.arc_offset + 4, 8, t.arcs, costs);
    read_column(bytes, 8, t.member_offset, width, t.members, caps);
    read_column(bytes, 8, t.member_offset + 8, width, t.members, proposals);
    t
}
