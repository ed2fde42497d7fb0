//! The outside: where bytes come from and where they go, peers, clocks and gates, as traits whose contracts say what
//! each call read, took or gave.
//!
//! It stands on nothing. A crate above is generic over these traits, so that its contracts speak of bytes: over
//! objects in memory they tell all of them, over a file or a socket none. Logic never opens anything by itself.
//!
//! Its one contract: what a call read or took, and a count of faults that rises with each failure.
//!
//! What was chosen here, and why: docs/DECISIONS.md, "The ground".
#![tactic(auto)]

mod caller;
mod calls;
mod clock;
mod dock;
mod link;
mod mem_caller;
mod mem_dock;
mod mem_link;
mod mem_sink;
mod mem_source;
mod sink;
mod source;

pub use caller::Caller;
pub use clock::{Clock, Gate, Moment, OpenGate, StepClock};
pub use dock::{Arrival, Dock};
pub use link::Link;
pub use mem_caller::MemCaller;
pub use mem_dock::MemDock;
pub use mem_link::MemLink;
pub use mem_sink::MemSink;
pub use mem_source::MemSource;
pub use sink::Sink;
pub use source::{Failed, Source};
