// Each member's cap and number, at its vertex. A list of pairs would take 16 bytes a vertex in place of 10, and the level
// split then more of the stack than the C header says.
use crate::VERTICES;

#[derive(Drop)]
pub struct Members {
    pub caps: [u64; VERTICES],
    pub numbers: [u16; VERTICES],
}
