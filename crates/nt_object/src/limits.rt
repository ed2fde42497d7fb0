//! The sizes of objects and of a stream's start, and the tags.

/// Bytes of the stream's head and its Trace object.
pub const START_BYTES: usize = 102;

/// Bytes of the stream's head, before its Trace object.
pub const HEAD_BYTES: usize = 32;

/// Bytes of a block besides its type's name, its padding and its body: tags, versions, the name's length and the size.
pub const BLOCK_BYTES: usize = 21;

/// The version of a Trace object, and the least that a reader must know.
pub const TRACE_VERSION: u32 = 4;

/// The version of a block, and the least that a reader must know.
pub const BLOCK_VERSION: u32 = 2;

/// The tag of the null reference.
pub const NULL_REFERENCE: u8 = 1;

/// The tag that begins an object, and its type.
pub const BEGIN_OBJECT: u8 = 5;

/// The tag that ends an object, and its type.
pub const END_OBJECT: u8 = 6;
