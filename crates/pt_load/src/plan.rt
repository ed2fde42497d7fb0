//! How much the sample program writes.

/// A run of the sample program.
#[derive(Clone, Copy, Debug, PartialEq, Eq)]
pub struct Plan {
    /// It says with which event each thread begins.
    pub seed: u64,
    /// Threads are numbered from 1 to this.
    pub threads: u32,
    /// The writes of each thread.
    pub writes: u32,
}
