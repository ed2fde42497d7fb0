//! NetTrace streams, version 4: the writer of a stream.
//!
//! `writer` takes events and points, `stacks` and `pending` keep what is not written yet, `output` writes blocks, and
//! `ids` has the ids of definitions; `laws` and `vectors` have what holds of the definitions alone, `limits` the
//! bounds. It stands on nt_object, nt_head, nt_meta and nt_blocks, for the parts of the format, on nt_stacks, for the
//! ids of stacks, on pt_io, for the sink, and on ep_defs. Which stream is written for which entries is in
//! `specs/Layout` and `specs/Canonical`.
//!
//! Its one contract: what the sink of a `TraceWriter` took is the canonical stream of the entries of its calls.
//!
//! What was chosen here, and why: docs/DECISIONS.md, "The format".
#![tactic(auto)]

mod fault;
mod ids;
mod laws;
pub mod limits;
mod output;
mod pending;
mod stacks;
mod vectors;
mod writer;

pub use fault::Fault;
pub use laws::{
    a_canonical_stream_is_as_the_words_say, a_flag_stands_where_its_value_differs,
    one_stream_at_most, written_is_canonical,
};
pub use vectors::{
    a_body_of_964_events_takes_1956_bytes, a_first_event_takes_seven_bytes,
    a_header_of_22_bytes_is_passed_over, a_missing_number_takes_three_bytes_more,
    a_new_activity_takes_16_bytes, a_second_event_takes_two_bytes,
    a_session_without_events_takes_158_bytes, a_stack_is_written_again_after_a_point,
    five_events_of_one_thread_and_one_of_another, nested_fields_stand_before_the_name,
    one_event_and_its_description_take_462_bytes, one_event_takes_310_bytes,
    the_start_takes_102_bytes, varuints_have_their_low_bits_first,
};
pub use writer::{EventOut, TraceWriter};
