#![tactic(auto)]

// The limits of the specification, as specs/Limits.antt has them.
pub const MOST_ARCS: usize = 1023;

pub const MOST_SMALL_ARCS: usize = 6;

pub const MOST_CLASSES: usize = 4;

pub const GROUP_BITS: usize = 1024;

pub const MOST_COST: u32 = 1_000_000_000;

pub const MOST_SHARE: u64 = 2_000_000_000_000;

pub const MOST_EVENTS: u32 = 1_000_000;
