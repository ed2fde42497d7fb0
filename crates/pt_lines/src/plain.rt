//! Payloads of numbers alone, as nearly all are: their fields are written into a buffer, the last one first, so that they go out in
//! one piece with what stands around them.
ghost use Rattle.std.specs.Prelude.{◌≡◌, ◌-◌, ◌≤◌, length, drop, IfSome};
ghost use Rattle.pt_lines.specs.state.Held.{HoldsNumber};
ghost use Rattle.pt_lines.specs.state.Plain.{PlacesFields, PlacesMembers};

use crate::fields::open_after;
use crate::named::NamedField;
use crate::number::{HeldNumber, number_at};
use crate::place::place_word;
use nt_fields::{FieldKind, Size};

// How many digits the number of a field has at most: 2^53 - 1 has 16.
const HELD_BYTES: usize = 20;

/// Writes the fields of a payload as a line shows them, where all of them are numbers that stand in no object and there is room.
#[inline(always)]
pub fn place_fields(
    text: &mut [u8],
    end: usize,
    fields: &[NamedField],
    payload: &[u8],
) -> Option<usize>
    requires { end ≤ length text.old }
    ensures placed { IfSome result (λ start. PlacesFields fields.now payload.now start end text.old text.new) }
    ensures len { length text.new ≡ length text.old }
{
    let mut start = end;
    let mut before = payload.len();
    let mut left = fields;
    while let [rest @ .., field] = left {
        let held = held_before(field, payload, before)?;
        let label = field.label();
        if open_after(field) > 0 || start < HELD_BYTES || start - HELD_BYTES < label.len() {
            return None;
        }
        let digits = itoa::write_digits(held.number, text, start);
        start = place_word(text, digits, label);
        before -= held.used;
        left = rest;
    }
    if before > 0 {
        return None;
    }
    Some(start)
}

/// So it is with the members of an object, which stand behind no other.
#[inline(always)]
pub fn place_members(
    text: &mut [u8],
    end: usize,
    fields: &[NamedField],
    payload: &[u8],
) -> Option<usize>
    requires { end ≤ length text.old }
    ensures placed { IfSome result (λ start. PlacesMembers fields.now payload.now start end text.old text.new) }
    ensures len { length text.new ≡ length text.old }
{
    let mut start = end;
    let mut before = payload.len();
    let mut left = fields;
    while let [rest @ .., field] = left {
        let held = held_before(field, payload, before)?;
        let member = field.member();
        if start < HELD_BYTES || start - HELD_BYTES < member.len() {
            return None;
        }
        let digits = itoa::write_digits(held.number, text, start);
        start = place_word(text, digits, member);
        before -= held.used;
        left = rest;
    }
    if before > 0 {
        return None;
    }
    // No comma stands before the first one.
    Some(if fields.is_empty() { start } else { start + 1 })
}

// The number that a field holds whose value ends at this place of a payload, if it is one that lines and objects show alike.
#[inline(always)]
fn held_before(field: &NamedField, payload: &[u8], end: usize) -> Option<HeldNumber>
    requires { end ≤ length payload.now }
    ensures within { IfSome result (λ held. held.used ≤ end) }
    ensures held { IfSome result (λ held. HoldsNumber field.now (drop (end - held.used) payload.now) held) }
{
    let kind = FieldKind::of(field.code())?;
    let size = width_of(kind)?;
    if end < size {
        return None;
    }
    let held = number_at(kind, &payload[end - size..])?;
    if held.used == size { Some(held) } else { None }
}

// How many bytes a value of this kind has, if it is such a number.
#[inline(always)]
fn width_of(kind: FieldKind) -> Option<usize> {
    match kind {
        FieldKind::Signed(size) | FieldKind::Unsigned(size) => match size {
            Size::Four => Some(4),
            Size::Eight => Some(8),
            Size::One | Size::Two => None,
        },
        _ => None,
    }
}
