//! What the functions answer. Every code but `OK`, `MORE` and `CUT` says that all is as before the call.

/// The call did what it is for.
pub const OK: u32 = 0;

/// The handle is not live: it was not begun, or its stream has ended.
pub const NOT_LIVE: u32 = 1;

/// `tp_begin` on a handle that is live.
pub const LIVE: u32 = 2;

/// A definition that a stream can't hold.
pub const BAD_DEFINITION: u32 = 3;

/// The lengths of the fields' names don't add up to the units of the names.
pub const BAD_NAMES: u32 = 4;

/// 1,000 definitions are there.
pub const TOO_MANY_DEFINITIONS: u32 = 5;

/// No definition has this number.
pub const NO_DEFINITION: u32 = 6;

/// More than 800 bytes of frames, or not 8 for each.
pub const BAD_FRAMES: u32 = 7;

/// More than 60,000 bytes of payload.
pub const LONG_PAYLOAD: u32 = 8;

/// 1,000,001 other threads have events.
pub const TOO_MANY_THREADS: u32 = 9;

/// The thread has 4,294,967,295 events.
pub const TOO_MANY_EVENTS: u32 = 10;

/// 2,147,483,646 events with frames stand since the last point.
pub const TOO_MANY_STACKS: u32 = 11;

/// The stream was ended, and waits to be pulled.
pub const ENDED: u32 = 12;

/// `tp_end` has more bytes to give.
pub const MORE: u32 = 13;

/// There was no memory.
pub const OUT_OF_MEMORY: u32 = 14;

/// There was no memory amid a write: the stream stops within this call's entry, and can still be pulled.
pub const CUT: u32 = 15;
