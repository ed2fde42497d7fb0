//! Where a session is open.

/// What a session has of one row.
#[derive(Clone, Copy, Debug, PartialEq, Eq)]
pub struct Place {
    /// The life after the last one in which the session was opened on the row, or 0 where it never was.
    pub next: u32,
    /// Whether it is open there.
    pub is_open: bool,
}
