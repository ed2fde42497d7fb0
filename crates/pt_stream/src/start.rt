//! What a stream begins with.
use ep_guarded::{Grant, Program};
use ep_live::Free;
use ep_pool::PoolSeat;
use nt_write::Fault;
use pt_io::Sink;

/// What a session that was accepted is started with.
#[derive(Drop)]
pub struct Accepted<'a, P: Program, S: Sink> {
    /// The slot that it gets on each row.
    pub free: Free<'a, P>,
    pub grant: &'a Grant,
    /// A seat of its pool with all shares, one more than there are rows.
    pub pool: PoolSeat,
    pub sink: S,
    pub id: u64,
    /// The number of the connection that asked for it.
    pub conn: u32,
}

/// What is left of a session that could not be started, and why.
#[derive(Drop)]
pub struct NotStarted<'a, P: Program, S: Sink> {
    pub free: Free<'a, P>,
    pub sink: S,
    pub fault: Fault,
}
