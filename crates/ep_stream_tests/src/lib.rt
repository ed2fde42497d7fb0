//! The tests of ep_stream: a session over rows in a list, call by call, its stream against bytes worked out by hand and
//! against streams that a writer makes of the same events.
//!
//! It stands on ep_stream and what its calls take, and nothing stands on it. A crate that has tests is proved twice, so they
//! stand here, where they are proved alone.
#![tactic(auto)]

#[cfg(test)]
mod tests;
