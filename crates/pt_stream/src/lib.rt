//! One session over the rows of a run's threads, from its start to its end.
//!
//! Who has a `Stream` opens it on rows, each in a life of its thread, takes what the threads keep for it, closes it on
//! each row again, and ends it: then its slot and its chunks are there for another session. It may wait behind a lock and go
//! to another thread between two calls, since it refers to no rows: each call is lent them. It stands on ep_stream for the
//! stream, on ep_live for the rows behind locks, and on ep_live_laws for what the stream has told. Its sink is its user's: an
//! output, or a connection. What is fixed of a run is `specs/Setting`, and what a stream is between calls `specs/State`.
//!
//! Its one contract: the clauses of `Stream::end`, defined in `specs/End`.
//!
//! What was chosen here, and why: docs/DECISIONS.md, "The program".
#![tactic(auto)]

mod place;
mod run;
mod start;
mod stream;

pub use place::Place;
pub use run::Run;
pub use start::{Accepted, NotStarted};
pub use stream::Stream;
