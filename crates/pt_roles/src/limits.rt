//! How much a run has.

/// The lives that each row of a run serves, one after another.
pub const LIVES: u32 = 100;
