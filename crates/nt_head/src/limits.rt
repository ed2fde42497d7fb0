//! The greatest sizes of a header and its parts.

/// Bytes of the longest header: the flag byte, 5, 20, 10, 5, 10, 16, 16 and 5.
pub const HEAD_BYTES: usize = 88;

/// Bytes of an activity id.
pub const ID_BYTES: usize = 16;
