//! What an event is: an instant, or an end of a span.
ghost use Rattle.std.specs.Prelude.{◌≡◌, ◌++◌, OnOk};
ghost use Rattle.pt_lines.specs.Chromium.{phase_text};
ghost use Rattle.pt_lines.specs.Json.{uuid_text};
ghost use Rattle.pt_lines.specs.state.Pieces as pieces;

use crate::guid::{GUID_BYTES, place_guid};
use crate::place::place_word;
use pt_print::put_word;
use std::alloc::AllocError;

/// What an event is.
#[derive(Clone, Copy, Debug, PartialEq, Eq)]
pub enum Phase {
    /// An instant of its thread.
    Instant,
    /// It begins a span of its activity.
    Begin,
    /// It ends one.
    End,
}

// The ends of names that begin and end a span (.NET's EventSource): `Start` and `Stop`.
const START: [u16; 5] = [83, 116, 97, 114, 116];

const STOP: [u16; 4] = [83, 116, 111, 112];

/// What an event of an activity is that has this name, and the name of the instant or of the span.
pub fn end_of(name: &[u16]) -> (Phase, &[u16])
    ensures phase { result.0 ≡ (pieces.end_of name.now).0 }
    ensures name { result.1.now ≡ (pieces.end_of name.now).1 }
{
    if let Some(stem) = name.strip_suffix(&START) {
        return (Phase::Begin, stem);
    }
    match name.strip_suffix(&STOP) {
        Some(stem) => (Phase::End, stem),
        None => (Phase::Instant, name),
    }
}

/// Appends the members that tell a phase.
pub fn put_phase(out: &mut Vec<u8>, activity: &[u8; 16], phase: Phase) -> Result<(), AllocError>
    ensures { OnOk result (out.new.items ≡ out.old.items ++ phase_text activity.now phase) }
{
    match phase {
        Phase::Instant => put_word(out, "\"ph\":\"i\",\"s\":\"t\""),
        Phase::Begin => put_span(out, b"\"ph\":\"b\",\"id\":", activity),
        Phase::End => put_span(out, b"\"ph\":\"e\",\"id\":", activity),
    }
}

// How many bytes a phase fills that has an activity: what it is, and the activity between quotes.
const SPAN_BYTES: usize = 16 + GUID_BYTES;

// Appends a phase of a span.
#[inline(always)]
fn put_span(out: &mut Vec<u8>, phase: &[u8; 14], activity: &[u8; 16]) -> Result<(), AllocError>
    ensures { OnOk result (out.new.items ≡ out.old.items ++ (phase.now ++ uuid_text activity.now)) }
{
    let mut text = [0; SPAN_BYTES];
    let behind = place_word(&mut text, SPAN_BYTES, b"\"");
    let id = place_guid(&mut text, behind, activity);
    let before = place_word(&mut text, id, b"\"");
    let start = place_word(&mut text, before, phase);
    out.extend_from_slice(&text[start..])
}
