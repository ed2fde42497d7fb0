//! Laws: what a session keeps of its threads, and what its stream has told, is what the steps so far say.
//!
//! `laws` has what holds of the definitions alone: no code stands here. It stands on ep_model, which says what the
//! steps of a program come to, and on ep_stream, which says what a session keeps between its calls and what each call
//! makes of it. When what is kept follows the steps is `specs/Kept`; which steps are a session's own is `specs/Makers`.
//!
//! Its one contract: what a session keeps follows each next step, by the change that ep_stream's call for that step
//! makes of it; its stream's entries grow by what that call tells; and no step changes a session that has finished.
//!
//! What was chosen here, and why: docs/DECISIONS.md, "What a thread keeps".
#![tactic(auto)]

mod laws;

pub use laws::{
    a_closed_thread_is_marked, a_finished_session_stays, a_finished_session_tells_its_last_entries,
    a_new_session_keeps_nothing, a_point_forgets_closed_threads, an_opened_thread_is_named,
    entries_are_what_was_told, other_steps_change_nothing_kept, the_last_marks_are_all,
    what_is_given_back_is_not_in_hand, what_is_stolen_is_told,
};
