//! The bounds of a stream that is written, each with its unit.

/// The greatest number of a definition: those of a schedule, and one more.
pub const LAST_EVENT: u32 = 1_001;

/// The events with frames between two points: each may have a stack of its own, and ids are signed numbers of 32 bits
/// in the NetTrace format.
pub const FRAMED_EVENTS: u32 = 2_147_483_646;

/// The bytes of a stack body before its first stack.
pub const STACKS_BYTES: usize = 8;

/// The bytes before each stack, which say its size.
pub const SIZE_BYTES: usize = 4;

/// The bytes of the longest stack: 100 frames of 8 bytes.
pub const STACK_BYTES: usize = 800;
