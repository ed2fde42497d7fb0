//! One connection of the diagnostic server of a traced program, from its first byte to its answer.
//!
//! It stands on ipc_take, which reads a message of a link, on ipc_serve, for what its bytes ask for and for the replies,
//! on ep_journal, for what is decided, and on nt_write, for what begins a stream. Who decides is a `Deciding`: the
//! registry behind its lock in a run. A `Desk` keeps each connection that is no session, by number, with its answer and
//! its link, and a `Served` is the link of a session. Why a connection may end as it does, and what its link gave and
//! took, stands in `specs/Connection`, and the same of all of them in `specs/Told`.
//!
//! Its one contract: each connection is decided once and ends as its bytes ask, with a reply that its link took whole
//! where no write failed, and with a fault only where that link's own count rose.
//!
//! What was chosen here, and why: docs/DECISIONS.md, "The protocol".
#![tactic(auto)]

mod answer;
mod deciding;
mod desk;
mod hear;
mod process;
mod reply;
mod served;
mod unstarted;

pub use answer::Asked;
pub use deciding::{Begun, Deciding, Opening};
pub use desk::{ConnAnswer, ConnEnd, Desk};
pub use process::Process;
pub use served::Served;
pub use unstarted::Unstarted;
