//! A thread's row and the buffers of the sessions that are open on it, each as it stands under a lock of its own.
//!
//! A row and each of its buffers, a buffer and the hand of the session's stream, and a row and its thread must agree,
//! while what stands under one lock says nothing of what stands under another. So each keeps its halves of ties beside
//! it, and its type says that it is at rest over what its thread writes in a run. It stands on ep_row for the rows and
//! on ep_tie.
//!
//! Its one contract: each call makes the change of its step on the lent row and buffer, which are at rest before and
//! after.
//!
//! What was chosen here, and why: docs/DECISIONS.md, "Running threads".
#![tactic(auto)]

mod agreed;
mod buffer;
mod grant;
mod kept;
mod program;
mod row;
mod site;

pub use agreed::{Agreed, HandNumbers, Held, Stand, Told};
pub use buffer::TiedBuffer;
pub use grant::Grant;
pub use program::Program;
pub use row::{NotOpened, TiedRow};
pub use site::{Site, ToOpen};
