// The trailer of a job.
ghost use Rattle.std.specs.Prelude.{◌≤◌, length};
ghost use Rattle.job_bytes.specs.Inner.{TrailerOf};

use crate::number::number_at;

#[derive(Clone, Copy, Debug, PartialEq, Eq)]
pub struct Trailer {
    pub arc_offset: usize,
    pub member_offset: usize,
    pub arcs: usize,
    pub members: usize,
}

impl Trailer {
    pub fn read(bytes: &[u8]) -> Trailer
        requires { 16 ≤ length bytes.now }
        ensures { TrailerOf bytes.now result.arc_offset result.member_offset result.arcs result.members }
    {
        let at = bytes.len() - 16;
        Trailer {
            arc_offset: number_at(bytes, at, 4) as usize,
            member_offset: number_at(bytes, at + 4, 4) as usize,
            arcs: number_at(bytes, at + 8, 2) as usize,
            members: number_at(bytes, at + 10, 2) as usize,
        }
    }
}
