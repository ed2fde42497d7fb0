//! Pools of chunks: a session's budget, all of whose chunks are reserved when it is made.
//!
//! Who keeps a write takes a chunk where its last one lacks the room, and gives chunks back once their records are in
//! the session's stream. It does so through a purse, whatever pool stands behind it: one with one owner, or one that
//! threads share, of which each has a seat that counts what it took and gave. It stands on the chunks, and on
//! crossbeam_queue, in whose ruled queue the free chunks of a shared pool stand.
//!
//! Its one contract: of a pool, the free chunks and those that are out make its total; a chunk that is taken is empty;
//! none is given where none is free, and no chunk is lost. Only `new` takes memory. `specs/Counts` says what a pool
//! with one owner is, `specs/Shared` and `specs/Deals` one that is shared.
//!
//! What was chosen here, and why: docs/DECISIONS.md, "What a thread keeps".
#![tactic(auto)]

mod limits;
mod own_pool;
mod pool;
mod purse;
mod seat;
mod steps;

pub use limits::SEAT_COUNTS;
pub use own_pool::OwnPool;
pub use pool::Pool;
pub use purse::Purse;
pub use seat::{PoolSeat, Seated};
