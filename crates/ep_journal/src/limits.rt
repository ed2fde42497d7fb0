//! How much a journal holds.

/// The connections that a server takes in one run. A journal has room for the decision on each, and for as many
/// sessions.
pub const CONNECTIONS: usize = 500;
