//! How many ties a row has.
use ep_defs::limits::SESSIONS;

/// The ties of a row's buffers: for each slot one between the row and the buffer, and one between the buffer and its hand.
pub const ROW_TIES: usize = 2 * SESSIONS;
