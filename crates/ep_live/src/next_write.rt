//! What a thread writes next.
use ep_defs::Write;
use pt_io::Moment;

/// A thread's next write, with its stamp, and the moment at which the thread passes the gate once it has begun it.
#[derive(Drop)]
pub struct NextWrite<'w> {
    pub at: Moment,
    pub stamp: u64,
    pub write: &'w Write,
}
