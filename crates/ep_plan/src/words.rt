//! The words of a schedule's text: what each spells, and how each value is written.

mod ahead;
mod field_list;
mod frame_list;
mod hex_bytes;
mod names;
mod numbers;
mod rules;
mod split;

pub(crate) use ahead::{
    bytes_ahead, dash_ahead, ends, frames_ahead, id_ahead, leading, verb_ahead,
};
pub(crate) use field_list::fields;
pub(crate) use frame_list::{frames, put_frames};
pub(crate) use hex_bytes::{id, payload, put_id, put_payload};
pub use names::provider;
pub(crate) use names::{event_name, put_name};
pub use numbers::{hexadecimal, number};
pub(crate) use numbers::{put_hexadecimal, put_number};
pub(crate) use rules::put_rule;
pub use rules::rule;
pub(crate) use split::first_part;
