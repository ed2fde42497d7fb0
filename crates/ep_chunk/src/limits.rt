//! The sizes of records and chunks, in bytes.

/// A chunk (16 in each MB of a session's buffers).
pub const CHUNK_LEN: usize = 65_536;

/// What stands in a record before its frames.
pub const HEAD_LEN: usize = 68;

/// A frame of a record.
pub const FRAME_LEN: usize = 8;
