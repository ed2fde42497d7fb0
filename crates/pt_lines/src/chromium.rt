//! Lines as trace events (Google's "Trace Event Format").
pub mod line;
mod moment;
pub mod phase;
