//! Sessions.

/// Why a session ended.
#[derive(Clone, Copy, Debug, PartialEq, Eq)]
pub enum Fate {
    /// This connection stopped it.
    Requested { conn: u32 },
    /// All writers have ended.
    ProgramEnd,
    /// Its link failed.
    LinkFault,
    /// Its stream reached its greatest length.
    TooLong,
    OutOfMemory,
}

/// How far a session is.
#[derive(Clone, Copy, Debug, PartialEq, Eq)]
pub enum Stage {
    Serving,
    /// A role has found that it is to end so.
    Ending(Fate),
    /// It has ended, and its slot is free.
    Over(Fate),
    /// Its start failed, so that it is no session, and its slot is free.
    Failed,
}

/// Whether a session was opened on all rows.
#[derive(Clone, Copy, Debug, PartialEq, Eq)]
pub enum Opened {
    No,
    /// Before any write.
    Early,
    /// Once writes could have been made.
    Late,
}

/// What is known of a session.
#[derive(Clone, Copy, Debug, PartialEq, Eq)]
pub struct Entry {
    /// The connection that asked for it, from 1.
    pub conn: u32,
    /// Its slot, from 0.
    pub slot: u32,
    /// The connection that stopped it.
    pub ticket: Option<u32>,
    pub stage: Stage,
    /// Whether it was opened on all rows.
    pub opened: Opened,
    /// How many connections had been decided when it could be stopped no more.
    pub gone: Option<u32>,
}
