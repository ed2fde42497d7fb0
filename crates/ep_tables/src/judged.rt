//! A step that can be made, with what judging it found.
use ep_defs::{Config, Write};

/// A thread that has a row, and the row.
#[derive(Clone, Copy, Debug)]
pub struct OnRow {
    pub thread: u32,
    /// Rows are numbered from 1.
    pub row: u32,
}

/// A session that is present, and its place among those that are.
#[derive(Clone, Copy, Debug)]
pub struct OfSession {
    pub session: u32,
    pub place: usize,
}

/// A session that is present, and a thread that has a row.
#[derive(Clone, Copy, Debug)]
pub struct OnBoth {
    pub of: OfSession,
    pub on: OnRow,
}

/// A step that can be made, with the row and the place of the session that it needs.
#[derive(Debug, Drop)]
pub enum Judged {
    Accept { session: u32, config: Config },
    /// The thread comes to a row that is free.
    Enter(OnRow),
    Leave(OnRow),
    Open(OnBoth),
    Begin { on: OnRow, stamp: u64, write: Write },
    Show(OnBoth),
    End(OnRow),
    Steal(OnBoth),
    Give(OfSession),
    Point { of: OfSession, stamp: u64 },
    Close(OnBoth),
    Finish { of: OfSession, stamp: u64 },
}
