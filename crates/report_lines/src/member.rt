// The lines of the members. Each has room in 150 bytes.
ghost use Rattle.std.specs.Prelude.{◌≡◌, ◌+◌, ◌*◌, ◌≤◌, length};
ghost use Rattle.engine.specs.Outcomes.{level_of};
ghost use Rattle.buffer.specs.Put.{Put};
ghost use Rattle.report_lines.specs.Lines.{level_share, member_line, member_lines};

use engine::LevelRefusal;

fn put_share(out: &mut [u8], at: usize, level: Result<usize, LevelRefusal>, share: u64) -> usize
    requires { at + 30 ≤ length out.old }
    ensures put { Put out.old at (level_share (level_of «level») share) out.new result }
    ensures upper_bound { result ≤ at + 30 }
{
    match level {
        Ok(_) => text::put_labelled(out, at, b" level ", share),
        Err(_) => buffer::put(out, at, b" level -"),
    }
}

fn put_member(
    out: &mut [u8],
    at: usize,
    level: Result<usize, LevelRefusal>,
    j: usize,
    vertex: u16,
    proposed: i64,
    by_arc: u64,
    share: u64,
) -> usize
    requires { at + 150 ≤ length out.old }
    ensures put { Put out.old at
        (member_line (level_of «level») j vertex proposed by_arc share) out.new result }
    ensures upper_bound { result ≤ at + 150 }
{
    let a = text::put_number(out, at, j as u64);
    let b = text::put_labelled(out, a, b" at ", vertex as u64);
    let c = text::put_labelled_signed(out, b, b": proposed ", proposed);
    let d = text::put_labelled(out, c, b" by-arc ", by_arc);
    let e = put_share(out, d, level, share);
    buffer::put(out, e, b"\n")
}

// The lists have an entry a member.
pub fn put_members(
    out: &mut [u8],
    at: usize,
    level: Result<usize, LevelRefusal>,
    vertices: &[u16],
    proposed: &[i64],
    by_arc: &[u64],
    shares: &[u64],
) -> usize
    requires vertices_len { length vertices.now ≡ length proposed.now }
    requires by_arc_len { length by_arc.now ≡ length proposed.now }
    requires shares_len { length shares.now ≡ length proposed.now }
    requires proposed_in_bounds { at + 150 * length proposed.now ≤ length out.old }
    ensures { Put out.old at
        (member_lines (level_of «level») vertices.now proposed.now by_arc.now
        shares.now (length proposed.now)) out.new result }
{
    let mut next = at;
    for j in 0..proposed.len() {
        next = put_member(
            out,
            next,
            level,
            j,
            vertices[j],
            proposed[j],
            by_arc[j],
            shares[j],
        );
    }
    next
}
