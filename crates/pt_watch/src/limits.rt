//! What is counted.

/// The events of the sample program. Their definitions have the numbers from 1 on.
pub const EVENTS: usize = 8;
