//! What a reader finds in a stream (NetTrace, version 4), whole or cut, and in one that tells faithfully of threads.
//!
//! `laws` has what holds of the definitions alone: no code stands here. It stands on nt_blocks, which says what is
//! found in a list of bytes, on nt_write, which says what a stream with its items is and which one is written for
//! entries, on ep_model, which says which entries are faithful, and on ep_rundown and ep_told, for what a rundown adds.
//! What a reader makes of a stream, whole or cut, is `specs/Reading`; when a stream's items tell faithfully of threads is
//! `specs/Faithful`; which items are those of a rundown is `specs/Bare`.
//!
//! Its one contract: a well-formed stream is read whole, with the items that it holds; so the canonical stream of
//! entries is, and its items stand in order and tell these entries, and of each thread exactly what its share has
//! where the entries are faithful; a stream that is cut is found to go on.
//!
//! What was chosen here, and why: docs/DECISIONS.md, "The format".
#![tactic(auto)]

mod laws;

pub use laws::{
    a_canonical_stream_is_read_whole, a_faithful_stream_is_found, a_part_of_a_stream_is_found,
    a_stream_that_is_cut_is_not_refused, a_stream_with_a_rundown_is_faithful,
    a_well_formed_stream_is_read_whole,
};
