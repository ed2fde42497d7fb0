//! How far a seat counts.

/// A seat counts fewer chunks than this as taken, and fewer than this as given.
pub const SEAT_COUNTS: u64 = 1 << 62;
