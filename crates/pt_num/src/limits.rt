//! The greatest sizes of numbers and texts.

/// Units of a text that is written, without the final zero unit.
pub const TEXT_UNITS: usize = 32_000;

/// Bytes of a varuint of 32 bits.
pub const VAR32_BYTES: usize = 5;

/// Bytes of a varuint of 64 bits.
pub const VAR64_BYTES: usize = 10;

/// The fifth byte of a varuint of 32 bits, which has the four bits that are left.
pub const VAR32_LAST: u8 = 15;

/// The tenth byte of a varuint of 64 bits, which has the one bit that is left.
pub const VAR64_LAST: u8 = 1;

/// The values of a varuint's group, the seven low bits of a byte. A byte from here on says that another group follows.
pub const GROUP: u8 = 128;
