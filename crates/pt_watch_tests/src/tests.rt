//! What the command prints, and whole runs with threads.
mod lines;
mod runs;

/// What a test is aborted with where a call finds no memory.
const MEMORY: &str = "there is memory";
