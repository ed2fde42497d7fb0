//! The fields of an event.
ghost use Rattle.std.specs.Prelude.{◌≡◌, ◌≤◌, ◌++◌, Some, IfOk, IfSome, OnOk, List, ℕ, drop, length, map};
ghost use Rattle.nt_fields.specs.Kinds.{kind_of};
ghost use Rattle.nt_fields.specs.Values.{payload_at};
ghost use Rattle.pt_lines.specs.declared.json.fields.TheConstants.{MEMBERS_BYTES};
ghost use Rattle.pt_lines.specs.Json.{commas};
ghost use Rattle.pt_lines.specs.Appends.{Appends};
ghost use Rattle.pt_lines.specs.state.Nest.{PutsMember, PutsMembers, still};
ghost use Rattle.pt_lines.specs.state.Opening.{IsLastPayload, IsNextPayload, opening};
ghost use Rattle.pt_lines.specs.state.Plain.{ClosesMembers};

use crate::json::nest::Nest;
use crate::json::value::put_quoted_hex;
use crate::named::NamedField;
use crate::number::number_at;
use crate::place::place_word;
use crate::plain::place_members;
use nt_fields::FieldKind;
use pt_print::put_word;
use std::alloc::{AllocError, Global};

// How many bytes the fields of a payload have at most that go out in one piece with what ends them, as nearly all do.
const MEMBERS_BYTES: usize = 192;

/// Appends the fields of a payload behind what opens them, which was put before, or all of it in place of that; and behind that this
/// end of what holds them.
#[inline(always)]
pub fn put_fields(
    out: &mut Vec<u8>,
    alloc: Global,
    fields: &[NamedField],
    payload: &[u8],
    end: &[u8; 2],
) -> Result<(), AllocError>
    ensures { (old : List ℕ) → out.old.items ≡ old ++ opening
        → OnOk result (Appends (IsLastPayload fields.now payload.now (payload_at fields.now payload.now) end.now) old out.new.items) }
{
    let mut text = [0; MEMBERS_BYTES];
    match place_closed(&mut text, fields, payload, end) {
        Some(start) => out.extend_from_slice(&text[start..]),
        None => put_any_fields(out, alloc, fields, payload, end),
    }
}

// Writes the fields of a payload that are numbers at the end of a buffer, and what ends them, if there is room.
#[inline(always)]
fn place_closed(
    text: &mut [u8],
    fields: &[NamedField],
    payload: &[u8],
    end: &[u8; 2],
) -> Option<usize>
    requires { length text.old ≡ MEMBERS_BYTES }
    ensures { IfSome result (λ start. (start ≤ MEMBERS_BYTES) × ClosesMembers fields.now payload.now end.now (drop start text.new)) }
{
    let behind = place_word(text, MEMBERS_BYTES, end);
    let close = place_word(text, behind, b"}");
    place_members(text, close, fields, payload)
}

// So it is with any fields. It stands apart, so that the way of the others is short.
#[inline(never)]
fn put_any_fields(
    out: &mut Vec<u8>,
    alloc: Global,
    fields: &[NamedField],
    payload: &[u8],
    end: &[u8; 2],
) -> Result<(), AllocError>
    ensures { (old : List ℕ) → out.old.items ≡ old ++ opening
        → OnOk result (Appends (IsLastPayload fields.now payload.now (payload_at fields.now payload.now) end.now) old out.new.items) }
{
    put_payload(out, alloc, fields, payload)?;
    out.extend_from_slice(end)
}

/// What opens the fields of a payload, behind another member.
pub const OPENING: &str = ",\"fields\":{";

/// Appends the fields of a payload behind what opens them, which was put before, and their end; or puts all of it in hexadecimal in
/// place of that where it does not fit the fields.
pub fn put_payload(
    out: &mut Vec<u8>,
    alloc: Global,
    fields: &[NamedField],
    payload: &[u8],
) -> Result<(), AllocError>
    ensures { (old : List ℕ) → out.old.items ≡ old ++ opening
        → OnOk result (Appends (IsNextPayload fields.now payload.now (payload_at fields.now payload.now)) old out.new.items) }
{
    let start = out.len().saturating_sub(OPENING.len());
    let mut nest = Nest::new(alloc);
    if put_members(out, alloc, &mut nest, fields, payload)? {
        return Ok(out.push(b'}')?);
    }
    out.truncate(start);
    put_word(out, ",\"payload\":")?;
    put_quoted_hex(out, alloc, payload)
}

// Appends the members of the fields, and answers whether the payload fits them. Nothing is open before.
fn put_members(
    out: &mut Vec<u8>,
    alloc: Global,
    nest: &mut Nest,
    fields: &[NamedField],
    payload: &[u8],
) -> Result<bool, AllocError>
    requires { (members : List (ℕ × List ℕ)) → still nest.old members ≡ commas (map (λ member. member.1) members) }
    ensures { IfOk result (λ fits. PutsMembers fields.now (payload_at fields.now payload.now) fits out.old.items out.new.items) }
{
    let mut bytes = payload;
    for field in fields {
        let Some(used) = put_next(out, alloc, nest, field, bytes)? else {
            return Ok(false);
        };
        bytes = &bytes[used..];
    }
    if !bytes.is_empty() {
        return Ok(false);
    }
    nest.close_all(out)?;
    Ok(true)
}

// Appends the member of a field with its value at the front of the bytes, and answers how many bytes the value has, or none where
// none stands there.
fn put_next(
    out: &mut Vec<u8>,
    alloc: Global,
    nest: &mut Nest,
    field: &NamedField,
    bytes: &[u8],
) -> Result<Option<usize>, AllocError>
    ensures { IfOk result (λ used. PutsMember field.now bytes.now used nest.old nest.new out.old.items out.new.items) }
{
    let Some(kind) = FieldKind::of(field.code()) else {
        return Ok(None);
    };
    // Nearly all values are such numbers.
    if let Some(held) = number_at(kind, bytes) {
        nest.put_number(out, field, held.number)?;
        return Ok(Some(held.used));
    }
    put_other(out, alloc, nest, kind, field, bytes)
}

// So it is with any value of this kind. It stands apart, so that the way of numbers is short.
#[inline(never)]
fn put_other(
    out: &mut Vec<u8>,
    alloc: Global,
    nest: &mut Nest,
    kind: FieldKind,
    field: &NamedField,
    bytes: &[u8],
) -> Result<Option<usize>, AllocError>
    requires { kind_of field.now.code ≡ Some kind }
    ensures { IfOk result (λ used. PutsMember field.now bytes.now used nest.old nest.new out.old.items out.new.items) }
{
    let Some(taken) = kind.take(bytes) else {
        return Ok(None);
    };
    nest.put_field(out, alloc, field, &taken.value, bytes)?;
    Ok(Some(taken.used))
}
