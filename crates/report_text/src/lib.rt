// The report on a job as text, written into a lent buffer.
#![tactic(auto)]

mod accepted;

ghost use Rattle.std.specs.Prelude.{◌≡◌, ◌≤◌, length};
ghost use Rattle.buffer.specs.Put.{Put};
ghost use Rattle.report_text.specs.Report.{report_text};
ghost use Rattle.limits.specs.Limits.{most_arcs};

use accepted::put_job;
use limits::MOST_ARCS;
use report_lines::put_refused;

// Room for the longest report.
pub const ROOM: usize = 196608;

// The four lists are room for the values of the job.
fn put_report(
    bytes: &[u8],
    parents: &mut [u16],
    costs: &mut [u32],
    caps: &mut [u64],
    proposed: &mut [i64],
    out: &mut [u8],
) -> usize
    requires parents_len { length parents.old ≡ most_arcs }
    requires costs_len { length costs.old ≡ most_arcs }
    requires caps_len { length caps.old ≡ most_arcs }
    requires proposed_len { length proposed.old ≡ most_arcs }
    requires in_bounds { 190000 ≤ length out.old }
    ensures { Put out.old 0 (report_text bytes.now) out.new result }
{
    match job::read(bytes, parents, costs, caps, proposed) {
        Ok(read) => {
            let arcs = read.arcs;
            let members = read.members;
            put_job(
                &parents[0..arcs],
                &costs[0..arcs],
                &caps[0..members],
                &proposed[0..members],
                out,
            )
        }
        Err(refusal) => put_refused(out, 0, refusal),
    }
}

// Writes the report at the front of `out`, and answers the number of its bytes; the others stay.
pub fn report_text(bytes: &[u8], out: &mut [u8; ROOM]) -> usize
    ensures { Put out.old 0 (report_text bytes.now) out.new result }
{
    let mut parents = [0u16; MOST_ARCS];
    let mut costs = [0u32; MOST_ARCS];
    let mut caps = [0u64; MOST_ARCS];
    let mut proposed = [0i64; MOST_ARCS];
    put_report(
        bytes,
        &mut parents,
        &mut costs,
        &mut caps,
        &mut proposed,
        out,
    )
}
