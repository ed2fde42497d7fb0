//! The tests of the program's one call over real sockets: a run to which this program's own clients come, a run that calls this
//! program's own `greet`, and strangers who call `greet`, each from a thread of its own.
//!
//! It stands on pt_cli and pt_system, and nothing stands on it. A crate that has tests is proved twice, so they stand here,
//! where they are proved alone.
#![tactic(auto)]

#[cfg(test)]
mod tests;
