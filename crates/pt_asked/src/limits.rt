//! What stands for an option that is absent. The bounds on threads and writes are those of `ep_defs::limits`.

/// The seed of the sample program's writes.
pub const USUAL_SEED: u64 = 0;

/// The session's budget, in megabytes.
pub const USUAL_MEGABYTES: u32 = 256;
