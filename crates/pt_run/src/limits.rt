//! What stands for an option that is absent, and the bounds on options. Those on threads and writes are in
//! `ep_defs::limits`.

/// The seed of the sample program's writes.
pub const USUAL_SEED: u64 = 0;

/// The sessions for which the program's threads wait.
pub const USUAL_WAIT: u32 = 1;

/// As many as can be held at once.
pub const MOST_WAIT: u32 = 64;

/// The roles that write the streams of sessions.
pub const USUAL_STREAMERS: u32 = 4;

/// As many as there are slots of sessions.
pub const MOST_STREAMERS: u32 = 64;

/// The threads that have a row of the program, one after another.
pub const USUAL_LIVES: u32 = 1;

/// The links to a tool that is called.
pub const USUAL_CALLS: u32 = MOST_CALLS;

/// As many connections as a run can have.
pub const MOST_CALLS: u32 = 500;

/// With 256 rows a session is opened on no more threads than one can be.
pub const MOST_LIVES: u32 = 100;
