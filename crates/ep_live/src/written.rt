//! What became of a write.

/// What became of a write that was shown to all sessions that get it.
#[derive(Clone, Copy, Debug, PartialEq, Eq)]
pub struct Written {
    /// Its number among those of its thread, from 1.
    pub number: u32,
    /// A bit for each slot whose session gets it.
    pub shown: u64,
    /// A bit for each of them that refused it, since its record needed a chunk and the session's pool was found dry.
    pub refused: u64,
}
