//! The sizes of a stream's units, in bytes.

/// A tag.
pub const TAG_BYTES: usize = 1;

/// What an object begins with after its first tag: two tags, two versions and the length of its type's name.
pub const BEGUN_BYTES: usize = 14;

/// The payload of a Trace object.
pub const INFO_BYTES: usize = 48;

/// The size of a block's body.
pub const SIZE_BYTES: usize = 4;
