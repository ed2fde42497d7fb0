//! What the calls of a slot answer.

use ep_chunk::Chain;

/// What came of a write that was shown to a session. Both use a number.
#[derive(Clone, Copy, Debug, PartialEq, Eq)]
pub enum Shown {
    /// Its record is kept.
    Written { number: u32 },
    /// All of the session's chunks are held.
    Refused { number: u32 },
}

/// How many numbers a slot has used, and what became of them.
#[derive(Clone, Copy, Debug, PartialEq, Eq)]
pub struct Counts {
    pub used: u32,
    /// Records that were stolen.
    pub taken: u32,
    pub refused: u32,
    /// Records that are kept.
    pub pending: u32,
}

/// Records that were stolen.
#[derive(Debug, Drop)]
pub struct Batch {
    /// The chunks in which they stand.
    pub chain: Chain,
    /// The last number that was used before.
    pub last: u32,
}
