//! The fields of an event.
ghost use Rattle.std.specs.Prelude.{◌≡◌, ◌+◌, ◌<◌, ◌^◌, ◌++◌, Some, IfOk, OnOk};
ghost use Rattle.ep_defs.specs.Event.{deepest_after};
ghost use Rattle.nt_fields.specs.Kinds.{kind_of};
ghost use Rattle.nt_fields.specs.Values.{payload_at};
ghost use Rattle.pt_num.specs.Begins.{Keeps};
ghost use Rattle.pt_lines.specs.Texts.{IsPayload, closes, field_name};
ghost use Rattle.pt_lines.specs.Appends.{Appends};
ghost use Rattle.pt_lines.specs.state.Fields.{PutsField, PutsValues};
ghost use Rattle.pt_lines.specs.state.Pieces.{label_text};

use crate::named::NamedField;
use crate::number::number_at;
use crate::text::put_name;
use crate::value::{put_digits, put_hex, put_value};
use ep_defs::{FieldDef, OBJECT_CODE};
use nt_fields::FieldKind;
use std::alloc::{AllocError, Global};

/// Appends the fields of a payload, or all of it in hexadecimal where it does not fit the fields.
pub fn put_payload(
    out: &mut Vec<u8>,
    alloc: Global,
    fields: &[NamedField],
    payload: &[u8],
) -> Result<(), AllocError>
    ensures { OnOk result (Appends (IsPayload fields.now payload.now (payload_at fields.now payload.now)) out.old.items out.new.items) }
{
    let start = out.len();
    if put_values(out, alloc, fields, payload)? {
        return Ok(());
    }
    out.truncate(start);
    out.extend_from_slice(b" payload=")?;
    put_hex(out, alloc, payload)
}

// Appends the fields, and answers whether the payload fits them.
fn put_values(
    out: &mut Vec<u8>,
    alloc: Global,
    fields: &[NamedField],
    payload: &[u8],
) -> Result<bool, AllocError>
    ensures { IfOk result (λ fits. PutsValues fields.now (payload_at fields.now payload.now) fits out.old.items out.new.items) }
{
    let mut opened = 0;
    let mut bytes = payload;
    for field in fields {
        let Some(used) = put_field(out, alloc, opened, field, bytes)? else {
            return Ok(false);
        };
        opened = open_after(field);
        bytes = &bytes[used..];
    }
    if !bytes.is_empty() {
        return Ok(false);
    }
    put_closes(out, opened)?;
    Ok(true)
}

// Appends a field with its value at the front of the bytes, where so many objects are open, and answers how many bytes the value
// has, or none where none stands there.
fn put_field(
    out: &mut Vec<u8>,
    alloc: Global,
    opened: u64,
    field: &NamedField,
    bytes: &[u8],
) -> Result<Option<usize>, AllocError>
    ensures { IfOk result (λ used. PutsField opened field.now bytes.now used out.old.items out.new.items) }
{
    let Some(kind) = FieldKind::of(field.code()) else {
        return Ok(None);
    };
    // Nearly all values are such numbers.
    if let Some(held) = number_at(kind, bytes) {
        put_field_name(out, opened, field)?;
        put_digits(out, held.number)?;
        return Ok(Some(held.used));
    }
    put_other(out, alloc, opened, kind, field, bytes)
}

// So it is with any value of this kind. It stands apart, so that the way of numbers is short.
#[inline(never)]
fn put_other(
    out: &mut Vec<u8>,
    alloc: Global,
    opened: u64,
    kind: FieldKind,
    field: &NamedField,
    bytes: &[u8],
) -> Result<Option<usize>, AllocError>
    requires { kind_of field.now.code ≡ Some kind }
    ensures { IfOk result (λ used. PutsField opened field.now bytes.now used out.old.items out.new.items) }
{
    let Some(taken) = kind.take(bytes) else {
        return Ok(None);
    };
    put_field_name(out, opened, field)?;
    put_value(out, alloc, &taken.value, bytes)?;
    Ok(Some(taken.used))
}

#[inline(always)]
fn put_field_name(out: &mut Vec<u8>, opened: u64, field: &NamedField) -> Result<(), AllocError>
    ensures { OnOk result (out.new.items ≡ out.old.items ++ field_name opened field.now) }
{
    put_closes(out, opened.saturating_sub(u64::from(field.depth())))?;
    out.extend_from_slice(field.label())
}

/// Appends the name of a field, as it stands in lines.
pub fn put_label(out: &mut Vec<u8>, field: &FieldDef) -> Result<(), AllocError>
    ensures { OnOk result (out.new.items ≡ out.old.items ++ label_text field.now) }
{
    out.push(b' ')?;
    put_name(out, field.name.as_slice())?;
    Ok(out.push(b'=')?)
}

/// How many objects are open after a field.
pub fn open_after(field: &NamedField) -> u64
    ensures { result ≡ deepest_after field.now }
{
    let depth = u64::from(field.depth());
    if field.code() == OBJECT_CODE {
        depth + 1
    } else {
        depth
    }
}

// Appends the ends of so many objects.
fn put_closes(out: &mut Vec<u8>, count: u64) -> Result<(), AllocError>
    ensures { OnOk result (out.new.items ≡ out.old.items ++ closes count) }
{
    for _ in 0..count {
        out.extend_from_slice(b" }")?;
    }
    Ok(())
}
