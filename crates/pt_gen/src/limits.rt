//! The numbers of the schedule, each with its unit, and the bound on what is asked for.

/// The session that gets every event.
pub const WIDE: u32 = 1;

/// The session that gets some of one provider's events.
pub const NARROW: u32 = 2;

/// The first session's budget, in chunks of `ep_defs::limits::CHUNK_BYTES`.
pub const WIDE_CHUNKS: u32 = 4;

/// The second session's budget, in such chunks.
pub const NARROW_CHUNKS: u32 = 1;

/// The threads that write, numbered from 1.
pub const THREADS: u32 = 4;

/// The rounds after which both sessions sweep. A round is one write of one thread.
pub const SWEEP_ROUNDS: u32 = 4_096;

/// The writes that are made at most, of all threads together.
pub const MOST_WRITES: u32 = 1_000_000;
