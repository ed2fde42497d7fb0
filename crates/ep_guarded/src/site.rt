//! Where a session is opened and closed.
use crate::grant::Grant;

/// A slot of a row, in one of the row's lives.
#[derive(Clone, Copy, Debug, PartialEq, Eq)]
pub struct Site {
    /// The number of the row, from 0.
    pub number: usize,
    pub slot: u32,
    /// The life of the row, from 0.
    pub life: u32,
}

/// A session that is to be opened, where, and what it was granted.
#[derive(Drop)]
pub struct ToOpen<'a> {
    pub site: Site,
    pub session: u64,
    pub grant: &'a Grant,
}
