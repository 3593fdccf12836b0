// The standby's counters, with its limits (standby.rs, `Replica` and its constants).
#![tactic(auto)]

use frame_fields::Epoch;

// The standby's counters: a small record that C lends for each call; what is lent has no bool, so a flag is a byte, set if it is not 0.
#[repr(C)]
#[derive(Clone, Copy)]
pub struct Replica {
    pub epoch: Epoch,
    pub connections: u64,
    pub promoted: u8,
    pub checked: u8,
    // The connection's version: 0 is version 1, every other value version 2. It is set by an accepted Hello and stays past a drop.
    pub version2: u8,
}

impl Replica {
    // The most commits that may be pending: with so many, the next Batch runs them first.
    pub const MAX_HELD_COMMITS: u64 = 64;
    // The most message bytes that a session sent whole may hold back.
    pub const MAX_WHOLE_SESSION_BYTES: u64 = 4_294_967_296;
}
