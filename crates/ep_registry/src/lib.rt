//! The session registry of a diagnostic server: its journal, tied to what the server and the roles know, and what is kept
//! for them of slots and sessions.
//!
//! It stands on ep_journal, which says what was decided and what became of the sessions, and on ep_tie. The server keeps
//! the `Registry` behind one lock; each call is what the server, a writer or a role does under that lock, and none but
//! `new` takes memory. Each tie says that somebody outside of the lock knows the same: the server its decisions, whoever
//! has a session how far it is, and each role whether it has ended. A slot is freed only by handing in what is there of
//! it, and a session ends only by handing in what is left of it, of the kinds that `Kinds` names. The definitions are in
//! `specs/Held` and `specs/Registered`.
//!
//! Its one contract: the halves show what the journal has; a free slot, an ended session and the writers' end are there
//! with what belongs to them, and no session that waits for its role is lost.
//!
//! What was chosen here, and why: docs/DECISIONS.md, "The protocol".
#![tactic(auto)]

mod ends;
mod free;
mod gone;
mod halves;
mod hold;
mod kept;
mod kinds;
mod over;
mod places;
mod registry;
mod server;
mod waiting;

pub use ends::Ends;
pub use free::Frees;
pub use gone::Gone;
pub use hold::{Hold, Holder};
pub use kinds::Kinds;
pub use over::{Finished, Overs};
pub use registry::{Ended, Opening, Registry};
pub use server::{Mark, Role, Server};
pub use waiting::{Handed, Waiting};
