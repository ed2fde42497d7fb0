//! Decisions.

/// What was decided on a connection.
#[derive(Clone, Copy, Debug, PartialEq, Eq)]
pub enum Decision {
    /// No session was begun or stopped.
    Nothing,
    /// The session of this id was accepted.
    Accepted { id: u64 },
    /// A session was asked for while all slots were held.
    Full,
    /// The session of this id is to end.
    Ticket { id: u64 },
    /// A stop was refused: no live session had this id.
    Refused { id: u64 },
}
