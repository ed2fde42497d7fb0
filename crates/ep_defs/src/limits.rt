//! The bounds of this project's profile on events, sessions and writes, each with its unit.
//!
//! Code, definitions and proofs cite them by these names. A format's own numbers stand where the format does.

/// The definitions of events in one schedule or plan.
pub const EVENTS: usize = 1_000;

/// The units of UTF-16 in the name of a provider, and in that of an event.
pub const NAME_UNITS: usize = 1_000;

/// The fields of an event, those inside of others among them.
pub const FIELDS: usize = 100;

/// How many objects a field may stand inside of.
pub const FIELD_DEPTH: u32 = 8;

/// The units of UTF-16 in the name of a field.
pub const FIELD_NAME_UNITS: usize = 200;

/// The rules of a session.
pub const RULES: usize = 1_000;

/// The chunks of a session's budget.
pub const CHUNKS: u32 = 16_384;

/// The sessions that are held at once, and so the slots of a thread's row.
pub const SESSIONS: usize = 64;

/// The threads that are held at once.
pub const THREADS: u32 = 256;

/// The threads that a session may be opened on, one after another.
pub const SESSION_THREADS: usize = 1_000_000;

/// The writes of one thread.
pub const WRITES: u32 = 4_000_000_000;

/// The writes of all threads in one schedule. A stream can number as many stacks since a point.
pub const SCHEDULE_WRITES: u32 = 2_147_483_646;

/// The frames of a write.
pub const FRAMES: usize = 100;

/// The bytes of a write's payload.
pub const PAYLOAD_BYTES: usize = 60_000;

/// The bytes that a record of a write takes in a chunk, beside its frames and its payload.
pub const RECORD_BYTES: usize = 68;

/// The bytes that each frame of a record takes.
pub const FRAME_BYTES: usize = 8;

/// The bytes of a chunk.
pub const CHUNK_BYTES: usize = 65_536;

/// The units of UTF-16 in the three texts that a program says of itself, together.
pub const FACTS_UNITS: usize = 30_000;
