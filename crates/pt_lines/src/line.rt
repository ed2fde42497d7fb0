//! Whole lines.
ghost use Rattle.std.specs.Prelude.{◌≡◌, ◌≤◌, ◌++◌, ℕ, length, take, drop, replicate, IfSome, OnOk};
ghost use Rattle.ep_defs.specs.Entry.{EventEntry};
ghost use Rattle.pt_lines.specs.declared.form.Form.TheVariants as forms;
ghost use Rattle.pt_lines.specs.declared.line.TheConstants.{LINE_BYTES, START_BYTES};
ghost use Rattle.pt_lines.specs.declared.origin.Origin.{Origin};
ghost use Rattle.pt_lines.specs.Line.{Event, Lost, Point, lost_if};
ghost use Rattle.pt_lines.specs.Texts.{event_start, lost_line, point_text};
ghost use Rattle.pt_lines.specs.Forms.{AreLines, IsLine};
ghost use Rattle.pt_lines.specs.Appends.{Appends, Tells};
ghost use Rattle.pt_lines.specs.state.Pieces.{names_text, numbers_text};

use crate::fields::put_payload;
use crate::form::Form;
use crate::json::stack::ShownStack;
use crate::named::NamedDef;
use crate::origin::Origin;
use crate::place::{place_number, place_word};
use crate::plain::place_fields;
use crate::{chromium, json, page};
use ep_defs::EventDef;
use pt_print::{put_end, put_number, put_units, put_word};
use std::alloc::{AllocError, Global};

/// What the line of an event says.
#[derive(Clone, Copy)]
pub struct EventLine<'a> {
    pub origin: Origin,
    pub processor: u32,
    /// The thread that it names beside its capture thread.
    pub thread_id: u64,
    pub stamp: u64,
    /// The capture thread, whose number it has.
    pub thread: u64,
    pub number: u32,
    pub def: &'a NamedDef,
    pub activity: &'a [u8; 16],
    pub related: &'a [u8; 16],
    pub stack: &'a ShownStack,
    pub payload: &'a [u8],
}

/// Appends the line of numbers that a thread leaves out at this stamp, where there are some.
#[inline(always)]
pub fn put_lost(
    out: &mut Vec<u8>,
    form: Form,
    origin: Origin,
    stamp: u64,
    thread: u64,
    count: u32,
) -> Result<(), AllocError>
    ensures { OnOk result (Appends (AreLines form (lost_if origin stamp thread count)) out.old.items out.new.items) }
{
    if count == 0 {
        return Ok(());
    }
    put_one_lost(out, form, origin, stamp, thread, count)
}

// So it is where there are some. It stands apart, since for nearly all events there are none.
#[inline(never)]
fn put_one_lost(
    out: &mut Vec<u8>,
    form: Form,
    origin: Origin,
    stamp: u64,
    thread: u64,
    count: u32,
) -> Result<(), AllocError>
    ensures { OnOk result (Appends (IsLine form (Lost origin stamp thread count)) out.old.items out.new.items) }
{
    match form {
        Form::Lines => put_lost_line(out, thread, count),
        Form::Json => json::line::put_lost(out, thread, count),
        Form::Chromium => chromium::line::put_lost(out, origin, stamp, thread, count),
        Form::Page => page::line::put_lost(out, thread, count),
    }
}

fn put_lost_line(out: &mut Vec<u8>, thread: u64, count: u32) -> Result<(), AllocError>
    ensures { OnOk result (out.new.items ≡ out.old.items ++ lost_line thread count) }
{
    put_word(out, "lost")?;
    put_number(out, thread)?;
    put_number(out, u64::from(count))?;
    put_end(out)
}

/// Appends the line of a point that names these threads with their numbers.
pub fn put_point(
    out: &mut Vec<u8>,
    form: Form,
    origin: Origin,
    stamp: u64,
    threads: &[(u64, u32)],
) -> Result<(), AllocError>
    ensures { OnOk result (Appends (IsLine form (Point origin (record { stamp = stamp; threads = threads.now }))) out.old.items out.new.items) }
{
    match form {
        Form::Lines => put_point_line(out, stamp, threads.len()),
        Form::Json => json::line::put_point(out, stamp, threads),
        Form::Chromium => chromium::line::put_point(out, origin, stamp, threads),
        Form::Page => page::line::put_point(out, stamp, threads),
    }
}

fn put_point_line(out: &mut Vec<u8>, stamp: u64, threads: usize) -> Result<(), AllocError>
    ensures { OnOk result (out.new.items ≡ out.old.items ++ point_text stamp threads) }
{
    put_word(out, "point")?;
    put_number(out, stamp)?;
    put_number(out, threads as u64)?;
    put_end(out)
}

/// Appends the line of an event.
pub fn put_event(
    out: &mut Vec<u8>,
    alloc: Global,
    form: Form,
    event: &EventLine<'_>,
) -> Result<(), AllocError>
    ensures { (origin : Origin) (processor thread : ℕ) (entry : EventEntry) → Tells event.now origin processor thread entry
        → OnOk result (Appends (IsLine form (Event origin processor thread entry)) out.old.items out.new.items) }
{
    match form {
        Form::Lines => put_event_line(out, alloc, event),
        Form::Json => json::line::put_event(out, alloc, event),
        Form::Chromium => chromium::line::put_event(out, alloc, event),
        Form::Page => page::line::put_event(out, alloc, event),
    }
}

fn put_event_line(out: &mut Vec<u8>, alloc: Global, event: &EventLine<'_>) -> Result<(), AllocError>
    ensures { (origin : Origin) (processor thread : ℕ) (entry : EventEntry) → Tells event.now origin processor thread entry
        → OnOk result (Appends (IsLine forms.Lines (Event origin processor thread entry)) out.old.items out.new.items) }
{
    let mut text = [b' '; LINE_BYTES];
    match place_event(&mut text, event) {
        Some(start) => out.extend_from_slice(&text[start..]),
        None => put_any_line(out, alloc, *event),
    }
}

// How many bytes a line has at most that goes out in one piece, as nearly all do.
const LINE_BYTES: usize = 192;

// Writes the line of an event at the end of blanks, if the fields of its payload are numbers and there is room for all.
#[inline(always)]
fn place_event(text: &mut [u8], event: &EventLine<'_>) -> Option<usize>
    requires { text.old ≡ replicate LINE_BYTES 32 }
    ensures { IfSome result (λ start. (start ≤ LINE_BYTES)
        × ((origin : Origin) (processor thread : ℕ) (entry : EventEntry) → Tells event.now origin processor thread entry
        → IsLine forms.Lines (Event origin processor thread entry) (drop start text.new))) }
{
    let end = place_word(text, LINE_BYTES, b"\n");
    let fields = place_fields(text, end, event.def.fields(), event.payload)?;
    let names = event.def.names();
    if fields < START_BYTES || fields - START_BYTES < names.len() {
        return None;
    }
    let named = place_word(text, fields, names);
    Some(place_numbers(text, named, event.stamp, event.thread, event.number))
}

// So it is with the line of any event. It stands apart, so that the way of the others is short.
#[inline(never)]
fn put_any_line(out: &mut Vec<u8>, alloc: Global, event: EventLine<'_>) -> Result<(), AllocError>
    ensures { (origin : Origin) (processor thread : ℕ) (entry : EventEntry) → Tells event.entry origin processor thread entry
        → OnOk result (Appends (IsLine forms.Lines (Event origin processor thread entry)) out.old.items out.new.items) }
{
    put_event_start(out, &event)?;
    put_payload(out, alloc, event.def.fields(), event.payload)?;
    put_end(out)
}

fn put_event_start(out: &mut Vec<u8>, event: &EventLine<'_>) -> Result<(), AllocError>
    ensures { (origin : Origin) (processor thread : ℕ) (entry : EventEntry) → Tells event.now origin processor thread entry
        → OnOk result (out.new.items ≡ out.old.items ++ event_start entry) }
{
    put_numbers(out, event.stamp, event.thread, event.number)?;
    out.extend_from_slice(event.def.names())
}

// The word that begins the line of an event.
const WORD: [u8; 5] = *b"event";

// How many bytes that word and three numbers fill at most.
const START_BYTES: usize = 68;

// Appends the word and the numbers of an event.
fn put_numbers(out: &mut Vec<u8>, stamp: u64, thread: u64, number: u32) -> Result<(), AllocError>
    ensures { OnOk result (out.new.items ≡ out.old.items ++ numbers_text stamp thread number) }
{
    let mut text = [b' '; START_BYTES];
    let start = place_numbers(&mut text, START_BYTES, stamp, thread, number);
    out.extend_from_slice(&text[start..])
}

// Writes them behind blanks that stand there already, the last one first.
#[inline(always)]
fn place_numbers(text: &mut [u8], end: usize, stamp: u64, thread: u64, number: u32) -> usize
    requires within { end ≤ length text.old }
    requires room { START_BYTES ≤ end }
    requires blank { take end text.old ≡ replicate end 32 }
    ensures before { result ≤ end }
    ensures written { drop result text.new ≡ numbers_text stamp thread number ++ drop end text.old }
    ensures len { length text.new ≡ length text.old }
{
    let third = place_number(text, end, u64::from(number));
    let second = place_number(text, third, thread);
    let first = place_number(text, second, stamp);
    place_word(text, first, &WORD)
}

/// Appends the names of a definition, as they stand in the lines of its events.
pub fn put_names(out: &mut Vec<u8>, def: &EventDef) -> Result<(), AllocError>
    ensures { OnOk result (out.new.items ≡ out.old.items ++ names_text def.now) }
{
    put_units(out, def.provider.as_slice())?;
    put_units(out, def.name.as_slice())
}
