//! Where a session is closed, and when.
use ep_guarded::Site;

/// Where a session is closed, and how many writes the row's thread is to have begun there, if that is asked.
#[derive(Clone, Copy)]
pub(crate) struct ToClose {
    pub(crate) site: Site,
    pub(crate) ends: Option<u32>,
}
