//! The parts of a header, and how much a message holds.

/// What a message begins with.
pub const MAGIC: [u8; 14] = *b"DOTNET_IPC_V1\0";

/// The offset of the message's size.
pub const SIZE_AT: usize = 14;

/// The offset of the command set.
pub const SET_AT: usize = 16;

/// The offset of the command.
pub const COMMAND_AT: usize = 17;

/// The bytes of a header: the magic, the size, set and command, and two that are reserved.
pub const HEADER_BYTES: usize = 20;

/// The bytes of a message, its header among them.
pub const MESSAGE_BYTES: usize = 65_535;
