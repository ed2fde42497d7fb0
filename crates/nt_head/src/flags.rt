//! The bits of a header's flag byte, each by the field that it announces.

/// The id of the metadata.
pub const METADATA: u8 = 1;

/// How far the sequence number moved, the capturing thread and the processor.
pub const SEQUENCE: u8 = 2;

/// The thread.
pub const THREAD: u8 = 4;

/// The id of the stack.
pub const STACK: u8 = 8;

/// The id of the activity.
pub const ACTIVITY: u8 = 16;

/// The id of the related activity.
pub const RELATED: u8 = 32;

/// No field: the blob is sorted by its stamp.
pub const SORTED: u8 = 64;

/// The size of the payload.
pub const SIZE: u8 = 128;
