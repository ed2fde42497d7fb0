//! How the server's turns end.

/// How the server's turns came to their end.
#[derive(Clone, Copy, Debug, PartialEq, Eq)]
pub(crate) enum Exit {
    /// As many sessions are open as the writers wait for, or the writers have ended.
    Enough,
    /// Nobody comes in any more.
    Closed,
    /// The dock has failed.
    Failed,
    /// As many connections came in as can be.
    Full,
}
