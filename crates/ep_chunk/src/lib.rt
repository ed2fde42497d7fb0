//! Records of writes in chunks of reserved bytes, and chains of chunks.
//!
//! A thread's writes are kept raw until a session's stream takes them: one after another in a chunk of 65,536 bytes
//! that are reserved when the chunk is made, so that keeping a write takes no memory. It stands on byteorder alone.
//!
//! Its one contract: a chunk is a list of records whose sizes sum to at most 65,536 bytes, and a chain is a list of
//! chunks. A record is appended where it fits what is left and else refused, and read back from its place as it was
//! appended; chains are joined and split without memory. `specs/Record` says what a record is and how it is laid out,
//! and `specs/Places` where records stand in a chunk.
//!
//! What was chosen here, and why: docs/DECISIONS.md, "What a thread keeps".
#![tactic(auto)]

mod chain;
mod chunk;
mod layout;
mod limits;
mod rec;

pub use chain::Chain;
pub use chunk::Chunk;
pub use limits::{CHUNK_LEN, FRAME_LEN, HEAD_LEN};
pub use rec::{RecIn, RecOut};
