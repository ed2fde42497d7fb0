//! Whole lines.
ghost use Rattle.std.specs.Prelude.{◌≡◌, ◌≤◌, ◌++◌, ℕ, false, drop, length, replicate, IfSome, OnOk};
ghost use Rattle.std.specs.List.{concat};
ghost use Rattle.ep_defs.specs.Entry.{EventEntry};
ghost use Rattle.ep_defs.specs.Event.{is_same_text};
ghost use Rattle.pt_lines.specs.declared.form.Form.TheVariants as forms;
ghost use Rattle.pt_lines.specs.declared.chromium.line.TheConstants.{PLACE_BYTES, PLACED_BYTES};
ghost use Rattle.pt_lines.specs.declared.chromium.moment.TheConstants.{TIME_BYTES};
ghost use Rattle.pt_lines.specs.declared.origin.Origin.{Origin};
ghost use Rattle.pt_lines.specs.Line.{Event};
ghost use Rattle.pt_lines.specs.Forms.{IsLine};
ghost use Rattle.pt_lines.specs.Chromium.{error_tail, lost_counter, point_instant};
ghost use Rattle.pt_lines.specs.Appends.{Appends, Tells};
ghost use Rattle.pt_lines.specs.state.Opening.{opening};
ghost use Rattle.pt_lines.specs.state.Pieces.{ids_of, instant_text, named_pieces, placed_text, span_text};
ghost use Rattle.pt_lines.specs.state.Ending.{IsPlacedEnd};

use crate::chromium::moment::{TIME_BYTES, few_nanoseconds, place_time, put_moment, put_time};
use crate::chromium::phase::{end_of, put_phase};
use crate::guid::is_none;
use crate::json::fields::{OPENING, put_payload};
use crate::json::line::put_error as put_error_object;
use crate::json::value::put_integer;
use crate::line::EventLine;
use crate::origin::Origin;
use crate::place::{place_member, place_word};
use crate::plain::place_members;
use crate::text::put_quoted;
use ep_defs::EventDef;
use pt_print::put_word;
use std::alloc::{AllocError, Global};

/// Appends the counter of numbers that a thread leaves out.
pub fn put_lost(
    out: &mut Vec<u8>,
    origin: Origin,
    stamp: u64,
    thread: u64,
    count: u32,
) -> Result<(), AllocError>
    ensures { OnOk result (out.new.items ≡ out.old.items ++ lost_counter origin stamp thread count) }
{
    put_word(out, ",\n{\"name\":\"lost\",\"ph\":\"C\",\"id\":")?;
    put_integer(out, thread)?;
    out.push(b',')?;
    put_moment(out, origin, stamp)?;
    put_word(out, ",\"tid\":")?;
    put_integer(out, thread)?;
    put_word(out, ",\"args\":{\"count\":")?;
    put_integer(out, u64::from(count))?;
    put_word(out, "}}")
}

/// Appends the instant of a point that names so many threads.
pub fn put_point(
    out: &mut Vec<u8>,
    origin: Origin,
    stamp: u64,
    threads: &[(u64, u32)],
) -> Result<(), AllocError>
    ensures { OnOk result (out.new.items ≡ out.old.items ++ point_instant origin (record { stamp = stamp; threads = threads.now })) }
{
    put_word(out, ",\n{\"name\":\"point\",\"ph\":\"i\",\"s\":\"p\",")?;
    put_moment(out, origin, stamp)?;
    put_word(out, ",\"args\":{\"threads\":")?;
    put_integer(out, threads.len() as u64)?;
    put_word(out, "}}")
}

/// Appends the object of an event.
pub fn put_event(out: &mut Vec<u8>, alloc: Global, event: &EventLine<'_>) -> Result<(), AllocError>
    ensures { (origin : Origin) (processor thread : ℕ) (entry : EventEntry) → Tells event.now origin processor thread entry
        → OnOk result (Appends (IsLine forms.Chromium (Event origin processor thread entry)) out.old.items out.new.items) }
{
    put_named(out, event)?;
    put_placed(out, alloc, event)
}

// Appends the name, the category and the phase of an event.
fn put_named(out: &mut Vec<u8>, event: &EventLine<'_>) -> Result<(), AllocError>
    ensures { (origin : Origin) (processor thread : ℕ) (entry : EventEntry) → Tells event.now origin processor thread entry
        → OnOk result (out.new.items ≡ out.old.items ++ concat (named_pieces entry)) }
{
    if is_none(event.activity) {
        return out.extend_from_slice(event.def.instant());
    }
    put_phased(out, event)
}

// So it is with an event of an activity.
fn put_phased(out: &mut Vec<u8>, event: &EventLine<'_>) -> Result<(), AllocError>
    requires { is_same_text event.now.activity.now (replicate 16 0) ≡ false }
    ensures { (origin : Origin) (processor thread : ℕ) (entry : EventEntry) → Tells event.now origin processor thread entry
        → OnOk result (out.new.items ≡ out.old.items ++ concat (named_pieces entry)) }
{
    out.extend_from_slice(event.def.span())?;
    put_phase(out, event.activity, event.def.phase())
}

/// Appends what a trace event of this definition is that has an activity, up to its phase.
pub fn put_span(out: &mut Vec<u8>, def: &EventDef) -> Result<(), AllocError>
    ensures { OnOk result (out.new.items ≡ out.old.items ++ span_text def.now) }
{
    let (_, shown) = end_of(def.name.as_slice());
    put_word(out, ",\n{\"name\":")?;
    put_quoted(out, shown)?;
    put_word(out, ",\"cat\":")?;
    put_quoted(out, def.provider.as_slice())?;
    Ok(out.push(b',')?)
}

/// Appends what an instant of this definition is, up to its moment.
pub fn put_instant(out: &mut Vec<u8>, def: &EventDef) -> Result<(), AllocError>
    ensures { OnOk result (out.new.items ≡ out.old.items ++ instant_text def.now) }
{
    put_word(out, ",\n{\"name\":")?;
    put_quoted(out, def.name.as_slice())?;
    put_word(out, ",\"cat\":")?;
    put_quoted(out, def.provider.as_slice())?;
    put_word(out, ",\"ph\":\"i\",\"s\":\"t\"")
}

// Appends when and where an event was written, its fields, and its end.
fn put_placed(out: &mut Vec<u8>, alloc: Global, event: &EventLine<'_>) -> Result<(), AllocError>
    ensures { (origin : Origin) (processor thread : ℕ) (entry : EventEntry) → Tells event.now origin processor thread entry
        → OnOk result (Appends (IsPlacedEnd origin entry) out.old.items out.new.items) }
{
    let mut text = [0; PLACED_BYTES];
    match place_event(&mut text, event) {
        Some(start) => out.extend_from_slice(&text[start..]),
        None => put_any_placed(out, alloc, *event),
    }
}

// How many bytes that has at most which goes out in one piece, as it does of nearly all events.
const PLACED_BYTES: usize = 256;

// Writes it at the end of a buffer, if the fields of its payload are numbers and there is room for all.
#[inline(always)]
fn place_event(text: &mut [u8], event: &EventLine<'_>) -> Option<usize>
    requires { length text.old ≡ PLACED_BYTES }
    ensures { IfSome result (λ start. (start ≤ PLACED_BYTES)
        × ((origin : Origin) (processor thread : ℕ) (entry : EventEntry) → Tells event.now origin processor thread entry
        → IsPlacedEnd origin entry (drop start text.new))) }
{
    let nanos = few_nanoseconds(event.origin.frequency, event.stamp)?;
    let end = place_word(text, PLACED_BYTES, b"}}}");
    let members = place_members(text, end, event.def.fields(), event.payload)?;
    if members < PLACE_BYTES {
        return None;
    }
    let process = place_ids(
        text,
        members,
        event.origin.process,
        event.thread,
        event.number,
    );
    Some(place_time(text, process, nanos))
}

// So it is with any event. It stands apart, so that the way of the others is short.
#[inline(never)]
fn put_any_placed(out: &mut Vec<u8>, alloc: Global, event: EventLine<'_>) -> Result<(), AllocError>
    ensures { (origin : Origin) (processor thread : ℕ) (entry : EventEntry) → Tells event.entry origin processor thread entry
        → OnOk result (Appends (IsPlacedEnd origin entry) out.old.items out.new.items) }
{
    put_place(out, &event)?;
    put_payload(out, alloc, event.def.fields(), event.payload)?;
    out.extend_from_slice(b"}}")
}

// Appends when and where an event was written, and what opens its fields.
fn put_place(out: &mut Vec<u8>, event: &EventLine<'_>) -> Result<(), AllocError>
    ensures { (origin : Origin) (processor thread : ℕ) (entry : EventEntry) → Tells event.now origin processor thread entry
        → OnOk result (out.new.items ≡ out.old.items ++ (placed_text origin entry ++ opening)) }
{
    let mut text = [0; PLACE_BYTES];
    let process = place_ids(
        &mut text,
        PLACE_BYTES,
        event.origin.process,
        event.thread,
        event.number,
    );
    let Some(nanos) = few_nanoseconds(event.origin.frequency, event.stamp) else {
        out.push(b',')?;
        put_time(out, event.origin.frequency, event.stamp)?;
        return out.extend_from_slice(&text[process..]);
    };
    let start = place_time(&mut text, process, nanos);
    out.extend_from_slice(&text[start..])
}

// Writes where an event was written, and what opens its fields.
#[inline(always)]
fn place_ids(text: &mut [u8], end: usize, process: u32, thread: u64, number: u32) -> usize
    requires within { end ≤ length text.old }
    requires room { PLACE_BYTES ≤ end }
    ensures room { TIME_BYTES ≤ result }
    ensures before { result ≤ end }
    ensures written { drop result text.new ≡ ids_of process thread number ++ (opening ++ drop end text.old) }
    ensures len { length text.new ≡ length text.old }
{
    let fields = place_word(text, end, OPENING.as_bytes());
    let last = place_member(text, fields, b",\"args\":{\"number\":", u64::from(number));
    let next = place_member(text, last, b",\"tid\":", thread);
    place_member(text, next, b",\"pid\":", u64::from(process))
}

// How many bytes they fill at most: the names of three members 32, their numbers, what opens the fields 11, and the stamp's member.
const PLACE_BYTES: usize = 109 + TIME_BYTES;

/// Appends the ends of the objects of a stream that is wrong at this offset of its bytes, in words in which nothing has to be
/// escaped, with an object that says so.
pub fn put_error(out: &mut Vec<u8>, at: u64, words: &str) -> Result<(), AllocError>
    ensures { OnOk result (out.new.items ≡ out.old.items ++ error_tail at words.now) }
{
    put_word(out, "\n],\"error\":")?;
    put_error_object(out, at, words)?;
    put_word(out, "}\n")
}
