//! The bounds of this crate.

/// The greatest count of events and of gaps. What goes beyond it is held there.
pub const MOST_COUNTED: u64 = u64::MAX;
