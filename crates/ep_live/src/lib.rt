//! The rows and buffers of a program's running threads, each behind a lock of its own.
//!
//! A thread has its row's lock from the begin of a write to its end, and takes each due buffer's inside it. A session's
//! stream takes from a buffer under the buffer's lock alone, so that it may do so inside a write; it opens and closes
//! itself under the row's lock, with the buffer's inside. It stands on ep_guarded, for what stands under the locks, and on
//! ep_locks.
//!
//! Its one contract: whoever writes the plan's next write may, and what a session takes of a thread are the thread's next
//! writes that it gets. One session's rows are a row set of its stream. While nobody writes it has the threads' halves of
//! their ties too, so that its openings and closings stand where the threads do. A row serves one thread after another, and
//! is entered by the next only where no session is open on it. A session's slot is free again only once all its chunks
//! were given back.
//!
//! What was chosen here, and why: docs/DECISIONS.md, "Running threads".
#![tactic(auto)]

mod ended;
mod free;
mod grants;
mod limits;
mod live;
mod live_rows;
mod made;
mod next_write;
mod parked;
mod stands;
mod to_close;
mod turn;
mod written;

pub use ended::Ended;
pub use free::{Free, free_slots};
pub use grants::place;
pub use limits::ROW_TIES;
pub use live::{BuffersByNumber, Live, RowsByNumber};
pub use live_rows::{LiveRows, same_tests_have_the_same_lives, same_tests_have_the_same_stands};
pub use next_write::NextWrite;
pub use parked::Parked;
pub use stands::Stands;
pub use turn::Turn;
pub use written::Written;
