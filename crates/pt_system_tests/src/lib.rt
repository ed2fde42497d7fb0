//! The tests of the trusted edge, over what the system has: sockets that listen, are called and come, a clock that is set once,
//! the name and the facts of this process, and a reader and a writer that give, take and fail.
//!
//! It stands on pt_system and on the traits that this fulfils, and nothing stands on it. A crate that has tests is proved twice,
//! so they stand here, where they are proved alone.
#![tactic(auto)]

#[cfg(test)]
mod tests;
