//! Why a call is refused.
ghost use Rattle.std.specs.Prelude.{◌≡◌};
ghost use Rattle.tp_c.specs.Codes as said;

use crate::codes;
use std::alloc::AllocError;

/// Why a call is refused. All is as before it, but at `Cut`.
#[derive(Clone, Copy, Drop)]
pub enum Refusal {
    /// A stream can't hold the definition.
    BadDefinition,
    /// The lengths of the fields' names don't add up to the units of the names.
    BadNames,
    /// There is no number left for a definition.
    TooManyDefinitions,
    /// No definition has this number.
    NoDefinition,
    /// The frames are too many, or not of 8 bytes each.
    BadFrames,
    /// The payload is too long.
    LongPayload,
    /// A point could not name one thread more.
    TooManyThreads,
    /// The thread's events can't be numbered further.
    TooManyEvents,
    /// The stacks since the last point can't be numbered further.
    TooManyStacks,
    /// The stream has its end.
    Ended,
    OutOfMemory,
    /// There was no memory amid a write, now or before: the stream stops there.
    Cut,
}

impl From<AllocError> for Refusal {
    ghost use Rattle.std.specs.Prelude.{◌≡◌};
    ghost use Rattle.tp_c.specs.declared.refusal.Refusal.TheVariants.{OutOfMemory};

    ghost from_gives = { λ _ refusal. refusal ≡ OutOfMemory };

    fn from(_: AllocError) -> Self {
        Refusal::OutOfMemory
    }
}

impl Refusal {
    /// The code that C is answered.
    pub fn code(self) -> u32
        ensures { result ≡ said.code_of self }
    {
        match self {
            Refusal::BadDefinition => codes::BAD_DEFINITION,
            Refusal::BadNames => codes::BAD_NAMES,
            Refusal::TooManyDefinitions => codes::TOO_MANY_DEFINITIONS,
            Refusal::NoDefinition => codes::NO_DEFINITION,
            Refusal::BadFrames => codes::BAD_FRAMES,
            Refusal::LongPayload => codes::LONG_PAYLOAD,
            Refusal::TooManyThreads => codes::TOO_MANY_THREADS,
            Refusal::TooManyEvents => codes::TOO_MANY_EVENTS,
            Refusal::TooManyStacks => codes::TOO_MANY_STACKS,
            Refusal::Ended => codes::ENDED,
            Refusal::OutOfMemory => codes::OUT_OF_MEMORY,
            Refusal::Cut => codes::CUT,
        }
    }
}
