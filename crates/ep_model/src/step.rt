//! The steps of a schedule.
ghost use Rattle.std.specs.Prelude.{◌≡◌};
ghost use Rattle.ep_model.specs.Names.{step_kind_name};

use ep_defs::{Config, Write};

/// One step of the traced program or of a tool. Sessions have numbers above 0. Threads 1 to 256 are
/// there from the start, and others come.
#[derive(Debug, PartialEq, Eq, Drop)]
pub enum Step {
    /// A session is accepted.
    Accept {
        session: u32,
        config: Config,
    },
    /// It is opened on a thread, and gets the writes that the thread begins from then on.
    Open {
        session: u32,
        thread: u32,
    },
    /// A thread comes, and takes a row.
    Enter {
        thread: u32,
    },
    /// It goes. Its row is free once no session is open on it.
    Leave {
        thread: u32,
    },
    /// A thread begins a write.
    Begin {
        thread: u32,
        stamp: u64,
        write: Write,
    },
    /// The write is shown to a session that gets it.
    Show {
        thread: u32,
        session: u32,
    },
    /// The write ends.
    End {
        thread: u32,
    },
    /// What the thread has buffered for the session goes into the session's stream.
    Steal {
        session: u32,
        thread: u32,
    },
    /// The session gives back the buffers that it took.
    Give {
        session: u32,
    },
    /// The session's stream says how far each thread had come.
    Point {
        session: u32,
        stamp: u64,
    },
    /// It is closed on a thread, which takes what is left.
    Close {
        session: u32,
        thread: u32,
    },
    /// Its stream ends.
    Finish {
        session: u32,
        stamp: u64,
    },
}

/// Why a step can't be made.
#[derive(Clone, Copy, Debug, PartialEq, Eq)]
pub enum Kind {
    SessionNumber,
    BadConfig,
    Full,
    NoSession,
    NoThread,
    ThreadsFull,
    AlreadyOpen,
    ThreadLimit,
    InWrite,
    NotInWrite,
    NoEvent,
    TooLarge,
    TooMany,
    NotDue,
    ShowsDue,
    NotOpen,
    HandFull,
    StillOpen,
}

impl Kind {
    /// How an error line says it.
    pub fn name(self) -> &'static str
        ensures { result.now ≡ step_kind_name self }
    {
        match self {
            Kind::SessionNumber => "SessionNumber",
            Kind::BadConfig => "BadConfig",
            Kind::Full => "Full",
            Kind::NoSession => "NoSession",
            Kind::NoThread => "NoThread",
            Kind::ThreadsFull => "ThreadsFull",
            Kind::AlreadyOpen => "AlreadyOpen",
            Kind::ThreadLimit => "ThreadLimit",
            Kind::InWrite => "InWrite",
            Kind::NotInWrite => "NotInWrite",
            Kind::NoEvent => "NoEvent",
            Kind::TooLarge => "TooLarge",
            Kind::TooMany => "TooMany",
            Kind::NotDue => "NotDue",
            Kind::ShowsDue => "ShowsDue",
            Kind::NotOpen => "NotOpen",
            Kind::HandFull => "HandFull",
            Kind::StillOpen => "StillOpen",
        }
    }
}

/// The first step of a schedule that can't be made.
#[derive(Clone, Copy, Debug, PartialEq, Eq)]
pub struct Unlawful {
    /// The 1-based number of the step.
    pub step: u64,
    pub kind: Kind,
}
