//! What the diagnostic server of a traced program answers: one decision for the bytes of one connection.
//!
//! It stands on ipc_body, which reads requests, and on ep_table, which holds the sessions. The answer to each request,
//! and the table after it, stand in `specs/Decision`; codes and their order are those of docs/PROFILE.md.
//!
//! Its one contract: `decide` answers as that definition says and leaves its table, or answers that memory is missing,
//! and only to a request that takes some, and leaves the table as it was. An error never changes the table, and after
//! an accepted request nothing more is taken. A server that keeps its table behind a lock takes the same decision in
//! parts, so that no memory is taken under the lock: `asked` says what the bytes ask for, and the replies are here too.
//!
//! What was chosen here, and why: docs/DECISIONS.md, "The protocol".
#![tactic(auto)]

mod asks;
pub mod codes;
mod decision;
mod replies;

pub use asks::{a_decision_is_made_in_two_steps, asked};
pub use decision::{Action, answer, decide};
pub use replies::{ERROR_BYTES, SESSION_BYTES, error_reply, info_reply, session_reply};
