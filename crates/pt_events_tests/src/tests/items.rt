//! Items, and what their lines show in a form.
use ep_defs::{EventDef, FieldDef, ItemKind, Items, Units};
use pt_events::{Form, Listing};
use std::alloc::{AllocError, Global};

/// A field of this depth, code and name.
pub type Field = (u32, u8, &'static [u16]);

fn field_defs(alloc: Global, fields: &[Field]) -> Result<Items<FieldDef>, AllocError> {
    let mut defs = Vec::new(alloc);
    for (depth, code, name) in fields {
        let name = Items::new(name.to_vec(alloc)?);
        defs.push(FieldDef {
            depth: *depth,
            code: *code,
            name,
        })?;
    }
    Ok(Items::new(defs))
}

// A text of this unit.
fn letter(alloc: Global, unit: u16) -> Result<Units, AllocError> {
    Ok(Items::new([unit].to_vec(alloc)?))
}

/// The definition of P E under the id 1, with these fields.
pub fn meta(alloc: Global, fields: &[Field]) -> Result<ItemKind, AllocError> {
    let provider = letter(alloc, 80)?;
    let name = letter(alloc, 69)?;
    let fields = field_defs(alloc, fields)?;
    Ok(ItemKind::Meta {
        id: 1,
        def: EventDef {
            provider,
            id: 1,
            version: 0,
            level: 4,
            keywords: 1,
            name,
            fields,
        },
    })
}

/// An event of it, with its stamp, its capture thread, its number and its payload.
pub fn event(
    alloc: Global,
    stamp: u64,
    capture: u64,
    number: u32,
    payload: &[u8],
) -> Result<ItemKind, AllocError> {
    let payload = Items::new(payload.to_vec(alloc)?);
    Ok(ItemKind::Event {
        metadata: 1,
        number,
        capture,
        processor: 0,
        thread: 9,
        stack: 0,
        stamp,
        activity: [0; 16],
        related: [0; 16],
        payload,
    })
}

/// Appends the lines of an item, and tells whether it stands where it may.
pub fn list(listing: &mut Listing, form: Form, kind: ItemKind, out: &mut Vec<u8>) -> bool {
    listing.item(form, &kind, out).is_ok()
}

// Appends the lines of a definition with these fields and of an event with this payload.
fn list_event(
    alloc: Global,
    listing: &mut Listing,
    form: Form,
    fields: &[Field],
    payload: &[u8],
    out: &mut Vec<u8>,
) -> Result<bool, AllocError> {
    let is_defined = list(listing, form, meta(alloc, fields)?, out);
    let is_listed = list(listing, form, event(alloc, 100, 1, 1, payload)?, out);
    Ok(is_defined && is_listed)
}

// What stands in the line of an event before its fields.
const NAMES: &str = "event        100          1          1 P E";

const MEMBERS: &str =
    r#"{"kind":"event","stamp":100,"thread":1,"number":1,"processor":0,"thread_id":9,"provider":"P","name":"E","id":1,"version":0,"level":4,"keywords":1,"activity":"00000000-0000-0000-0000-000000000000","related":"00000000-0000-0000-0000-000000000000","stack":[],"#;

const ENTRY: &str = r#",
{"name":"E","cat":"P","ph":"i","s":"t","ts":0.100,"pid":0,"tid":1,"args":{"number":1,"#;

const ITEM: &str =
    r#",{"kind":"event","stamp":100,"thread":1,"number":1,"processor":0,"thread_id":9,"provider":"P","name":"E","id":1,"version":0,"level":4,"keywords":1,"activity":"00000000-0000-0000-0000-000000000000","related":"00000000-0000-0000-0000-000000000000","stack":[],"#;

// What stands there, and what stands at the end of the line.
fn around(form: Form) -> (&'static str, &'static str) {
    match form {
        Form::Lines => (NAMES, "\n"),
        Form::Json => (MEMBERS, "}\n"),
        Form::Chromium => (ENTRY, "}}"),
        Form::Page => (ITEM, "}\n"),
    }
}

/// Whether this stands in the line of an event with these fields and this payload, where the payload does.
pub fn is_shown(
    alloc: Global,
    form: Form,
    fields: &[Field],
    payload: &[u8],
    want: &str,
) -> Result<bool, AllocError> {
    let mut listing = Listing::new(alloc);
    let mut line = Vec::new(alloc);
    let is_listed = list_event(alloc, &mut listing, form, fields, payload, &mut line)?;
    let (start, end) = around(form);
    let text = format!(in alloc; "{start}{want}{end}")?;
    Ok(is_listed && line.as_slice() == text.as_bytes())
}

/// The name n.
pub const NAME: &[u16] = &[110];

/// A type code, a payload, and what stands in the line where the only field, n, has this code.
pub type Case = (u8, &'static [u8], &'static str);

/// What the first case wants that is not shown.
pub fn first_missing(
    alloc: Global,
    form: Form,
    cases: &[Case],
) -> Result<Option<&'static str>, AllocError> {
    for (code, payload, want) in cases {
        if !is_shown(alloc, form, &[(0, *code, NAME)], payload, want)? {
            return Ok(Some(*want));
        }
    }
    Ok(None)
}

/// Thursday, 29 February 2024, 23:59:58.007; and the bytes 0 to 15.
pub const DATE: &[u8] = &[0xe8, 7, 2, 0, 4, 0, 29, 0, 23, 0, 59, 0, 58, 0, 7, 0];

/// So many bytes as a GUID has.
pub const COUNTED: &[u8] = &[0, 1, 2, 3, 4, 5, 6, 7, 8, 9, 10, 11, 12, 13, 14, 15];

/// An object a with a number b and an object c, which has a number d; a number e; and an empty object f.
pub const OBJECTS: &[Field] = &[
    (0, 1, &[97]),
    (1, 6, &[98]),
    (1, 1, &[99]),
    (2, 6, &[100]),
    (0, 6, &[101]),
    (0, 1, &[102]),
];

/// A byte a and a number b of two bytes.
pub const PAIR: &[Field] = &[(0, 6, &[97]), (0, 8, &[98])];

/// An item: the definition of P E under the id 1, without fields; an event of it with its stamp, its capture thread and its
/// number; or a point with its stamp and its threads.
#[derive(Clone, Copy)]
pub enum Given {
    Meta,
    Event(u64, u64, u32),
    Point(u64, [(u64, u32); 3]),
}

fn item(alloc: Global, given: Given) -> Result<ItemKind, AllocError> {
    match given {
        Given::Meta => meta(alloc, &[]),
        Given::Event(stamp, capture, number) => event(alloc, stamp, capture, number, b""),
        Given::Point(stamp, threads) => Ok(ItemKind::Point {
            stamp,
            threads: Items::new(threads.to_vec(alloc)?),
        }),
    }
}

/// The lines of these items, up to the first that is refused.
pub fn lines_of(alloc: Global, form: Form, items: &[Given]) -> Result<Vec<u8>, AllocError> {
    let mut listing = Listing::new(alloc);
    let mut out = Vec::new(alloc);
    for given in items {
        if !list(&mut listing, form, item(alloc, *given)?, &mut out) {
            break;
        }
    }
    Ok(out)
}
