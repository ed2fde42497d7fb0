//! What the stream of a finished session tells, with a rundown or without.
//!
//! `laws` has what holds of the definitions alone: no code stands here. It stands on ep_model, which says what the entries
//! of a session are and when they are faithful, on ep_rundown, which says what the section of a rundown is, and on ep_defs,
//! for the types. `specs/Told` puts the two together.
//!
//! Its one contract: the section tells of thread 0 alone, which no program has, and so changes nothing of what is told of
//! the program's threads.
//!
//! What was chosen here, and why: docs/DECISIONS.md, "The format".
#![tactic(auto)]

mod laws;

pub use laws::{
    a_rundown_tells_of_thread_0, the_program_has_no_thread_0, what_is_told_is_a_session_s_own,
};
