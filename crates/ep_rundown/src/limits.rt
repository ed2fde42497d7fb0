//! The bound of this project's profile on the rundown.

use ep_defs::limits::EVENTS;

/// The number of the rundown's definition in a stream: the first one that no event of a program has.
pub const RUNDOWN_EVENT: u32 = EVENTS as u32 + 1;
