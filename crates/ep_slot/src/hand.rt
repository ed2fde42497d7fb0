//! The stream's side of a slot.
ghost use Rattle.std.specs.Prelude.{◌≡◌};

use std::marker::Model;

/// What a session's stream knows of a slot.
#[derive(Debug, Drop)]
pub struct Hand {
    pub(crate) session: u64,
    pub(crate) thread: u64,
    pub(crate) from: u32,
    pub(crate) taken: u32,
    pub(crate) last: u32,
    pub(crate) stolen: u32,
}

impl Model for Hand {
    ghost use Rattle.ep_slot.specs.Hand.{HandState};

    ghost Value = { HandState };

    ghost view = { λ h. record { session = h.session; thread = h.thread; from = h.from; taken = h.taken; last = h.last; stolen = h.stolen } };
}

impl Hand {
    pub fn session(&self) -> u64
        ensures { result ≡ self.now.session }
    {
        self.session
    }

    pub fn thread(&self) -> u64
        ensures { result ≡ self.now.thread }
    {
        self.thread
    }

    /// How many writes the thread had made when the session was opened on it.
    pub fn from(&self) -> u32
        ensures { result ≡ self.now.from }
    {
        self.from
    }

    /// How many records were taken by it.
    pub fn taken(&self) -> u32
        ensures { result ≡ self.now.taken }
    {
        self.taken
    }

    /// The last number that was used when it last took something, or 0.
    pub fn last(&self) -> u32
        ensures { result ≡ self.now.last }
    {
        self.last
    }

    /// How many chunks were stolen by it.
    pub fn stolen(&self) -> u32
        ensures { result ≡ self.now.stolen }
    {
        self.stolen
    }
}
