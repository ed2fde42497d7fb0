//! The statuses with which the program ends.

/// Done.
pub const DONE: u8 = 0;

/// The words are none of the program's.
pub const WORDS: u8 = 2;

/// The input is refused.
pub const REFUSED: u8 = 3;

/// A read of the input failed.
pub const READ_FAULT: u8 = 4;

/// A write of the output failed.
pub const WRITE_FAULT: u8 = 5;

/// The peer can't be called, or the link to it failed.
pub const LINK_FAULT: u8 = 6;

/// The peer's reply is an error.
pub const PEER_ERROR: u8 = 7;

/// The peer's bytes are no reply.
pub const BAD_REPLY: u8 = 8;

pub const OUT_OF_MEMORY: u8 = 9;

/// A session took more events than its stream can have.
pub const TOO_LONG: u8 = 10;
