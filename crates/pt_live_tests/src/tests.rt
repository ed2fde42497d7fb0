//! A module for each of the two crates, and the gate at which threads are held.
mod stream;
mod trace;
mod watch;

/// What a test is aborted with where a call finds no memory.
const MEMORY: &str = "there is memory";
