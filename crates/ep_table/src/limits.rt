//! How much the table holds.

/// The sessions that can be held at a time, as in EventPipe.
pub const SLOTS: usize = 64;
