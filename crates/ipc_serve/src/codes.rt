//! The codes of refusals, as .NET's diagnostic server sends them.

/// The bytes are no request.
pub const BAD_ENCODING: u32 = 0x8013_1384;

/// No request has this command set and command.
pub const UNKNOWN_COMMAND: u32 = 0x8013_1385;

/// The bytes don't begin as a message.
pub const UNKNOWN_MAGIC: u32 = 0x8013_1386;

/// The request can't be granted now.
pub const REFUSED: u32 = 0x8000_4005;

/// Memory is missing.
pub const OUT_OF_MEMORY: u32 = 0x8007_000e;
