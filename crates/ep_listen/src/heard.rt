//! What a callback hears.
ghost use Rattle.std.specs.Prelude.{◌++◌, [], ◌∷◌, List, OnOk, OnErr};
ghost use Rattle.ep_listen.specs.Heard.{HeardEvent, event_of};

use std::alloc::{AllocError, Global};

/// An event as it is handed to a callback.
#[derive(Clone, Copy, Debug)]
pub struct Heard<'a> {
    /// The number of the event's definition, from 1.
    pub event: u32,
    /// The write's number among those of its thread that the session admits, from 1.
    pub number: u32,
    pub thread: u64,
    /// In nanoseconds.
    pub stamp: u64,
    pub activity: [u8; 16],
    pub related: [u8; 16],
    /// Return addresses of the stack, the innermost first: eight bytes each, the low byte first.
    pub frames: &'a [u8],
    pub payload: &'a [u8],
}

/// Who hears a session's events.
pub trait Callback {
    // It stands for a list of events that it has heard, in order. Who keeps them stands for those that are kept, who
    // counts them for each list with these counts.
    ghost has_heard: { Self → List HeardEvent → Type 0 };

    /// Hears one event more. Out of memory it has not heard it.
    fn heard(&mut self, alloc: Global, event: &Heard<'_>) -> Result<(), AllocError>
        ensures heard { (before : List HeardEvent) → has_heard self.old before
            → OnOk result (has_heard self.new (before ++ event_of event.now ∷ [])) }
        ensures unheard { (before : List HeardEvent) → has_heard self.old before
            → OnErr result (has_heard self.new before) };
}
