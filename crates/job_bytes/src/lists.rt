// The lists that a job is written from.

// A job's contents, what both versions hold: one parent and one cost an arc, one cap and one proposal a member.
#[derive(Clone, Copy, Debug, PartialEq, Eq)]
pub struct Lists<'a> {
    pub note: &'a [u8],
    pub parents: &'a [u16],
    pub costs: &'a [u32],
    pub caps: &'a [u64],
    pub proposals: &'a [i64],
}
