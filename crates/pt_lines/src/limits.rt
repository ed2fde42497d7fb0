//! Numbers of the profile.

/// The greatest number that stands in JSON as a number, 2^53 - 1: a reader that holds numbers as doubles can't take a greater
/// one for itself (RFC 8259, section 6).
pub const MOST_EXACT: u64 = 9_007_199_254_740_991;

/// How many nanoseconds a second has.
pub const NANOSECONDS: u64 = 1_000_000_000;

/// How many bytes an address of a stack has where the stream doesn't say it.
pub const ADDRESS_BYTES: usize = 8;
