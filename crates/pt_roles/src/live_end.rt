//! What is left of a run.
use ep_defs::{Config, MarkList};
use ep_pool::PoolSeat;
use ep_stream::Fate;
use pt_server::ConnEnd;

/// A session that has ended.
#[derive(Drop)]
pub struct LiveSession<L> {
    pub id: u64,
    /// The connection that asked for it, from 1.
    pub conn: u32,
    pub config: Config,
    /// Of each thread on which it was opened, ascending by thread.
    pub marks: MarkList,
    pub fate: Fate,
    /// How many connections had been decided when it could be stopped no more.
    pub gone: Option<u32>,
    /// A seat with all shares of the session's pool, from which each chunk was taken at its end. It counts how often the
    /// pool was found dry.
    pub seat: PoolSeat,
    pub link: L,
}

/// What is left of a run once all of its threads have ended.
#[derive(Drop)]
pub struct LiveEnd<L> {
    /// Each row's last thread, and how many writes it has made.
    pub rows: Vec<(u64, u32)>,
    /// By id.
    pub sessions: Vec<LiveSession<L>>,
    /// The connections that are no sessions, by number.
    pub conns: Vec<ConnEnd<L>>,
    /// Whether the dock failed, so that nobody came in any more.
    pub dock_failed: bool,
}
