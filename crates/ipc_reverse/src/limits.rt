//! The parts of the advertise message.

/// What it begins with.
pub const MAGIC: [u8; 8] = *b"ADVR_V1\0";

/// The offset of the runtime cookie.
pub const COOKIE_AT: usize = 8;

/// The offset of the process id.
pub const PROCESS_AT: usize = 24;

/// The bytes of the message: the magic, the cookie, the process id, and two that are reserved.
pub const ADVERT_BYTES: usize = 34;
