//! The payload of a metadata blob, which defines an event.
ghost use Rattle.std.specs.Prelude.{◌≡◌, ◌+◌, ◌<◌, ◌≤◌, ◌++◌, ◌==◌, length, count_by, nat_lt, IsTrue, OnOk, OnErr};
ghost use Rattle.std.specs.List.{list_all, prefix_len};
ghost use Rattle.ep_defs.specs.Event.{is_valid_event, is_valid_field};
ghost use Rattle.ep_defs.specs.declared.limits.TheConstants.{FIELDS, FIELD_DEPTH, PAYLOAD_BYTES};
ghost use Rattle.nt_meta.specs.Meta.{after, fields_bytes, inside, meta_payload, IsMeta};
ghost use Rattle.nt_meta.specs.declared.limits.TheConstants.{LAST_ID};
ghost use Rattle.nt_meta.specs.state.Fields.{inside_bytes};
ghost use Rattle.pt_num.specs.Begins.{Keeps};

use ep_defs::ranges::event_fits;
use ep_defs::{EventDef, FieldDef, OBJECT_CODE};
use pt_num::{put_u32, put_u64, put_utf16z};
use std::alloc::AllocError;

/// Appends the definition of an event under this id.
pub fn put_meta(out: &mut Vec<u8>, id: u32, def: &EventDef) -> Result<(), AllocError>
    requires valid { IsTrue (is_valid_event def.now) }
    requires not_zero { 0 < id }
    requires id_fits { id ≤ LAST_ID }
    ensures ok { OnOk result (out.new.items ≡ out.old.items ++ meta_payload id def.now) }
    ensures form { IsMeta id def.now (meta_payload id def.now) }
    ensures short { length (meta_payload id def.now) ≤ PAYLOAD_BYTES }
    ensures err { OnErr result (out.new.items ≡ out.old.items) }
{
    event_fits(def);
    let start = out.len();
    let put = append_meta(out, id, def);
    if put.is_err() {
        out.truncate(start);
    }
    put
}

fn append_meta(out: &mut Vec<u8>, id: u32, def: &EventDef) -> Result<(), AllocError>
    requires { IsTrue (is_valid_event def.now) }
    ensures ok { OnOk result (out.new.items ≡ out.old.items ++ meta_payload id def.now) }
    ensures err { OnErr result (Keeps out.old.items out.new.items) }
{
    let fields = def.fields.as_slice();
    put_u32(out, id)?;
    put_utf16z(out, def.provider.as_slice())?;
    put_u32(out, def.id)?;
    put_utf16z(out, def.name.as_slice())?;
    put_u64(out, def.keywords)?;
    put_u32(out, def.version)?;
    put_u32(out, def.level)?;
    put_u32(out, count_at(fields, 0))?;
    append_fields(out, fields)
}

// Appends fields, each with those inside it.
#[cycle(fields)]
fn append_fields(out: &mut Vec<u8>, fields: &[FieldDef]) -> Result<(), AllocError>
    requires few { length fields.now ≤ FIELDS }
    requires valid { IsTrue (list_all is_valid_field fields.now) }
    ensures ok { OnOk result (out.new.items ≡ out.old.items ++ fields_bytes (length fields.now) fields.now) }
    ensures err { OnErr result (Keeps out.old.items out.new.items) }
{
    let mut rest = fields;
    while let [field, later @ ..] = rest {
        let (inside, after) = split_inside(field, later);
        put_u32(out, u32::from(field.code))?;
        append_inside(out, field, inside)?;
        put_utf16z(out, field.name.as_slice())?;
        rest = after;
    }
    Ok(())
}

// Appends what a field has of the fields inside it: nothing, unless it is an object.
#[cycle(fields)]
fn append_inside(out: &mut Vec<u8>, field: &FieldDef, inside: &[FieldDef]) -> Result<(), AllocError>
    requires few { length inside.now ≤ FIELDS }
    requires valid { IsTrue (list_all is_valid_field inside.now) }
    requires depth { field.now.depth ≤ FIELD_DEPTH }
    ensures ok { OnOk result (out.new.items ≡ out.old.items ++ inside_bytes field.now inside.now) }
    ensures err { OnErr result (Keeps out.old.items out.new.items) }
{
    if field.code != OBJECT_CODE {
        return Ok(());
    }
    put_u32(out, count_at(inside, field.depth + 1))?;
    append_fields(out, inside)
}

// The fields inside this one, of those after it, and the others.
fn split_inside<'a>(field: &FieldDef, later: &'a [FieldDef]) -> (&'a [FieldDef], &'a [FieldDef])
    ensures inside { result.0.now ≡ inside field.now later.now }
    ensures after { result.1.now ≡ after field.now later.now }
{
    later.split_at(inside_len(field.depth, later))
}

// How many of the first fields are deeper than this.
fn inside_len(depth: u32, fields: &[FieldDef]) -> usize
    ensures { result ≡ prefix_len (λ field. nat_lt depth field.depth) fields.now }
{
    fields
        .iter()
        .take_while(|field| field.depth > depth)
        .count()
}

// How many of the fields have this depth.
fn count_at(fields: &[FieldDef], depth: u32) -> u32
    requires { length fields.now ≤ FIELDS }
    ensures { result ≡ count_by (λ field. field.depth == depth) fields.now }
{
    fields.iter().filter(|field| field.depth == depth).count() as u32
}
