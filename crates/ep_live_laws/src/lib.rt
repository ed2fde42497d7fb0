//! Laws: what a session over running threads has told is what the threads wrote in the run, less the events whose
//! numbers are missing, which are as many as the session's marks count as refused.
//!
//! `laws` has what holds of the definitions alone, and `examples` what a small run amounts to: no code stands here.
//! It stands on ep_stream, which says what each call makes of a session, on ep_guarded for what a row's marks count,
//! and on nt_laws, which says when a stream tells faithfully of threads. What a stream has told by the marks of its
//! threads is `specs/Traced`, what its bytes are `specs/Streams`, what holds between calls `specs/Tracing`, and what
//! each call makes of a session `specs/Calls`.
//!
//! Its one contract: a session that is opened on some of a run's threads, each once and one of a row at a time, swept
//! any number of times, closed on each row and ended, has told all that was taken, and its sink took the stream of
//! faithful entries; and whatever its fate, what begins the stream of entries that are a part of what the threads wrote.
//!
//! What was chosen here, and why: docs/DECISIONS.md, "Running threads".
#![tactic(auto)]

pub mod examples;
mod laws;

pub use laws::{
    a_call_that_takes_nothing_changes_no_trace, a_closed_row_is_traced, a_part_is_found,
    a_session_starts_with_no_trace, a_session_that_ends_has_traced, a_sweep_is_traced,
    a_traced_stream_is_found, an_opened_row_is_traced,
};
