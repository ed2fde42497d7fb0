//! What is open on a row.
use ep_defs::Config;
use ep_slot::Slot;

/// A session's slot on a row's thread, with the configuration that the session was opened with.
#[derive(Drop)]
pub(crate) struct Open {
    pub(crate) slot: Slot,
    pub(crate) config: Config,
}
