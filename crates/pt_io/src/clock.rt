//! The time, and the moments of a run at which something outside may look on.
ghost use Rattle.std.specs.Prelude.{◌≡◌, ℕ};

use std::marker::Model;

/// A clock that threads share.
pub trait Clock: Sync {
    /// The time in nanoseconds since midnight of 1 January 1970. It may be any number, also one before the last.
    fn now(&self) -> u64;
}

/// A moment of a run. Threads and connections are numbered from 1, a thread's writes from 0.
#[derive(Clone, Copy, Debug, PartialEq, Eq)]
pub enum Moment {
    /// A write has begun, and no session was shown it yet.
    Begun { thread: u32, index: u32 },
    /// A write has ended.
    Wrote { thread: u32, index: u32 },
    /// A session is open on all rows.
    Opened { session: u64 },
    /// A session's records were taken, this many of them, or none.
    Swept { session: u64, taken: u64 },
    /// A connection got its reply.
    Answered { conn: u32 },
}

/// What a run passes at its moments. In the program it does nothing; a test waits there for another moment.
pub trait Gate: Sync {
    /// Is called with no lock held, but at `Begun`, where the writer holds its own row.
    fn pass(&self, at: Moment);
}

/// A clock that always says the same.
#[derive(Debug, Drop)]
pub struct StepClock {
    value: u64,
}

impl Model for StepClock {
    ghost Value = { ℕ };

    ghost view = { λ s. s.value };
}

impl StepClock {
    /// A clock that says `value`.
    pub fn new(value: u64) -> StepClock
        ensures { result ≡ value }
    {
        StepClock { value }
    }
}

impl Clock for StepClock {
    fn now(&self) -> u64
        ensures { result ≡ self.now }
    {
        self.value
    }
}

/// A gate that does nothing.
#[derive(Clone, Copy, Debug)]
pub struct OpenGate;

impl Gate for OpenGate {
    fn pass(&self, _at: Moment) {}
}
