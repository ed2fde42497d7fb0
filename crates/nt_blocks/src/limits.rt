//! The bounds of bodies, each with its unit.

/// Bytes of the header of a body of blobs, where nothing is added to it.
pub const HEADER_BYTES: usize = 20;

/// Bytes of the greatest body that is written where it can be helped.
pub const WRITTEN_BYTES: usize = 102_400;

/// The greatest number of a first stack, and of stacks or threads in a body: numbers of 32 bits with a sign in the
/// NetTrace format.
pub const LAST_COUNT: u32 = 2_147_483_647;

/// The threads in a point that is written: those that a session may be opened on, and one more.
pub const POINT_THREADS: usize = 1_000_001;

/// Bytes of the greatest body that a reader accepts.
pub const READ_BYTES: u32 = 16_777_216;
