//! Whole lines.
ghost use Rattle.std.specs.Prelude.{◌≡◌, ◌∷◌, [], ◌++◌, ℕ, codes, map, OnOk};
ghost use Rattle.ep_defs.specs.Entry.{EventEntry};
ghost use Rattle.pt_lines.specs.declared.form.Form.TheVariants as forms;
ghost use Rattle.pt_lines.specs.declared.origin.Origin.{Origin};
ghost use Rattle.pt_lines.specs.Line.{Event};
ghost use Rattle.pt_lines.specs.Forms.{IsLine};
ghost use Rattle.pt_lines.specs.Json.{array, behind_commas, commas, definition_members, error_object, known_object, lost_object, place_members, point_object};
ghost use Rattle.pt_lines.specs.Appends.{Appends, Tells};
ghost use Rattle.pt_lines.specs.state.Nest.{comma};
ghost use Rattle.pt_lines.specs.state.Pieces.{activities_text, alone_text, described_text};

use crate::guid::{GUID_BYTES, is_none, place_guid};
use crate::json::fields::put_fields;
use crate::json::stack::width_of;
use crate::json::value::{put_integer, put_plain};
use crate::line::EventLine;
use crate::place::{place_member, place_word};
use crate::text::put_quoted;
use ep_defs::EventDef;
use pt_print::put_word;
use std::alloc::{AllocError, Global};

/// Appends the object of numbers that a thread leaves out.
pub fn put_lost(out: &mut Vec<u8>, thread: u64, count: u32) -> Result<(), AllocError>
    ensures { OnOk result (out.new.items ≡ out.old.items ++ lost_object thread count) }
{
    put_word(out, "{\"kind\":\"lost\",\"thread\":")?;
    put_integer(out, thread)?;
    put_word(out, ",\"count\":")?;
    put_integer(out, u64::from(count))?;
    put_word(out, "}\n")
}

/// Appends the object of a point.
pub fn put_point(out: &mut Vec<u8>, stamp: u64, threads: &[(u64, u32)]) -> Result<(), AllocError>
    ensures { OnOk result (out.new.items ≡ out.old.items ++ point_object (record { stamp = stamp; threads = threads.now })) }
{
    put_word(out, "{\"kind\":\"point\",\"stamp\":")?;
    put_integer(out, stamp)?;
    put_word(out, ",\"threads\":")?;
    put_known(out, threads)?;
    put_word(out, "}\n")
}

// Appends the threads of a point.
fn put_known(out: &mut Vec<u8>, threads: &[(u64, u32)]) -> Result<(), AllocError>
    ensures { OnOk result (out.new.items ≡ out.old.items ++ array (map known_object threads.now)) }
{
    out.push(b'[')?;
    put_threads(out, threads)?;
    Ok(out.push(b']')?)
}

// Appends them with commas between them.
fn put_threads(out: &mut Vec<u8>, threads: &[(u64, u32)]) -> Result<(), AllocError>
    ensures { OnOk result (out.new.items ≡ out.old.items ++ commas (map known_object threads.now)) }
{
    let mut is_first = true;
    for (thread, number) in threads {
        put_thread(out, is_first, *thread, *number)?;
        is_first = false;
    }
    Ok(())
}

// Appends a thread of a point, behind a comma where another one stands before it.
fn put_thread(out: &mut Vec<u8>, is_first: bool, thread: u64, number: u32) -> Result<(), AllocError>
    ensures { OnOk result (out.new.items ≡ out.old.items ++ comma is_first ++ known_object (thread, number)) }
{
    if !is_first {
        out.push(b',')?;
    }
    put_word(out, "{\"thread\":")?;
    put_integer(out, thread)?;
    put_word(out, ",\"number\":")?;
    put_integer(out, u64::from(number))?;
    Ok(out.push(b'}')?)
}

/// Appends the object of an event.
pub fn put_event(out: &mut Vec<u8>, alloc: Global, event: &EventLine<'_>) -> Result<(), AllocError>
    ensures { (origin : Origin) (processor thread : ℕ) (entry : EventEntry) → Tells event.now origin processor thread entry
        → OnOk result (Appends (IsLine forms.Json (Event origin processor thread entry)) out.old.items out.new.items) }
{
    put_place(out, event)?;
    put_described(out, event)?;
    event.stack.put(out, width_of(event.origin.address))?;
    put_fields(out, alloc, event.def.fields(), event.payload, b"}\n")
}

// Appends when and where an event was written.
fn put_place(out: &mut Vec<u8>, event: &EventLine<'_>) -> Result<(), AllocError>
    ensures { (origin : Origin) (processor thread : ℕ) (entry : EventEntry) → Tells event.now origin processor thread entry
        → OnOk result (out.new.items ≡ out.old.items ++ (codes "{" ++ commas (place_members processor thread entry))) }
{
    let mut text = [0; PLACE_BYTES];
    let id = place_member(&mut text, PLACE_BYTES, b",\"thread_id\":", event.thread_id);
    let processor = place_member(
        &mut text,
        id,
        b",\"processor\":",
        u64::from(event.processor),
    );
    let number = place_member(
        &mut text,
        processor,
        b",\"number\":",
        u64::from(event.number),
    );
    let thread = place_member(&mut text, number, b",\"thread\":", event.thread);
    let start = place_member(
        &mut text,
        thread,
        b"{\"kind\":\"event\",\"stamp\":",
        event.stamp,
    );
    out.extend_from_slice(&text[start..])
}

// How many bytes its members fill at most: their names 70, and five numbers.
const PLACE_BYTES: usize = 180;

/// Appends what a definition says of its events.
pub fn put_definition(out: &mut Vec<u8>, def: &EventDef) -> Result<(), AllocError>
    ensures { OnOk result (out.new.items ≡ out.old.items ++ behind_commas (definition_members def.now)) }
{
    put_word(out, ",\"provider\":")?;
    put_quoted(out, def.provider.as_slice())?;
    put_word(out, ",\"name\":")?;
    put_quoted(out, def.name.as_slice())?;
    put_word(out, ",\"id\":")?;
    put_integer(out, u64::from(def.id))?;
    put_word(out, ",\"version\":")?;
    put_integer(out, u64::from(def.version))?;
    put_word(out, ",\"level\":")?;
    put_integer(out, u64::from(def.level))?;
    put_word(out, ",\"keywords\":")?;
    put_integer(out, def.keywords)
}

/// Appends what a definition says of its events, and that they belong to no activity, up to the stack.
pub fn put_alone(out: &mut Vec<u8>, def: &EventDef) -> Result<(), AllocError>
    ensures { OnOk result (out.new.items ≡ out.old.items ++ alone_text def.now) }
{
    put_definition(out, def)?;
    put_word(
        out,
        ",\"activity\":\"00000000-0000-0000-0000-000000000000\",\"related\":\"00000000-0000-0000-0000-000000000000\",\"stack\":",
    )
}

// Appends what an event is, and the activities that it belongs to, up to its stack.
fn put_described(out: &mut Vec<u8>, event: &EventLine<'_>) -> Result<(), AllocError>
    ensures { (origin : Origin) (processor thread : ℕ) (entry : EventEntry) → Tells event.now origin processor thread entry
        → OnOk result (out.new.items ≡ out.old.items ++ described_text entry) }
{
    if is_none(event.activity) && is_none(event.related) {
        // Most events belong to no activity.
        return out.extend_from_slice(event.def.alone());
    }
    out.extend_from_slice(event.def.members())?;
    put_activities(out, event.activity, event.related)
}

// How many bytes two activities fill with what names them and what names the stack behind them.
const ACTIVITIES_BYTES: usize = 36 + 2 * GUID_BYTES;

// Appends the activities of an event, up to its stack.
fn put_activities(
    out: &mut Vec<u8>,
    activity: &[u8; 16],
    related: &[u8; 16],
) -> Result<(), AllocError>
    ensures { OnOk result (out.new.items ≡ out.old.items ++ activities_text activity.now related.now) }
{
    let mut text = [0; ACTIVITIES_BYTES];
    let stack = place_word(&mut text, ACTIVITIES_BYTES, b"\",\"stack\":");
    let second = place_guid(&mut text, stack, related);
    let between = place_word(&mut text, second, b"\",\"related\":\"");
    let first = place_guid(&mut text, between, activity);
    let start = place_word(&mut text, first, b",\"activity\":\"");
    out.extend_from_slice(&text[start..])
}

/// Appends the object of what is wrong with a stream, at this offset of its bytes, in words in which nothing has to be escaped.
pub fn put_error(out: &mut Vec<u8>, at: u64, words: &str) -> Result<(), AllocError>
    ensures { OnOk result (out.new.items ≡ out.old.items ++ error_object at words.now) }
{
    put_word(out, "{\"kind\":\"error\",\"offset\":")?;
    put_integer(out, at)?;
    put_word(out, ",\"error\":")?;
    put_plain(out, words.as_bytes())?;
    put_word(out, "}\n")
}
