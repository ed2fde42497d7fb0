//! How much a session may be asked to hold.

/// The greatest budget of a session, in megabytes. A greater one that is asked for counts as this one.
pub const MEGABYTES: u32 = 1_024;

/// The chunks of one megabyte.
pub const MEGABYTE_CHUNKS: u32 = 16;

/// The bytes of the runtime cookie, which tells one run of a program from another.
pub const COOKIE_BYTES: usize = 16;
