//! The rundown of a stream: events that describe the definitions that its events named.
ghost use Rattle.std.specs.Prelude.{◌≡◌, ℕ, ◌+◌, ◌<◌, ◌≤◌, Option, [], ◌∷◌, List, None, Some, IfOk, length, IsTrue};
ghost use Rattle.std.specs.List.{list_all};
ghost use Rattle.ep_defs.specs.Definitions.{AreDistinct, definition_at};
ghost use Rattle.ep_defs.specs.Event.{is_valid_event};
ghost use Rattle.ep_defs.specs.Entry.{Entry, Event};
ghost use Rattle.ep_defs.specs.declared.session.TraceInfo.{TraceInfo};
ghost use Rattle.ep_defs.specs.declared.event.EventDef.{EventDef as EventValue};
ghost use Rattle.ep_rundown.specs.Rundown as rundowns;
ghost use Rattle.ep_rundown.specs.Rundown.{describing, describing_from, lacks_rundown, section, used, with_rundown};
ghost use Rattle.nt_meta.specs.declared.limits.TheConstants.{LAST_ID};
ghost use Rattle.nt_write.specs.declared.limits.TheConstants.{LAST_EVENT};
ghost use Rattle.nt_write.specs.Writer.{fault_of, sink_of};
ghost use Rattle.ep_stream.specs.Rundown.{AreUsed};
ghost use Rattle.ep_stream.specs.Telling.{IsTelling, TellsNext, TellsLast, IsFaulty};

use ep_defs::EventDef;
use ep_defs::limits::EVENTS;
use ep_rundown::limits::RUNDOWN_EVENT;
use ep_rundown::{description, rundown_def};
use nt_write::{EventOut, Fault, TraceWriter};
use pt_io::Sink;
use std::alloc::{AllocError, Global};

/// Writes the event that describes each definition that the stream's events named, in the order of their metadata ids,
/// and answers how many there are. Where there is no memory for that the stream is given up. A writer that has failed
/// answers its fault.
pub(crate) fn describe_used<S: Sink>(
    alloc: Global,
    writer: &mut TraceWriter<S>,
    events: &[EventDef],
    stamp: u64,
) -> Result<u32, Fault>
    requires few { length events.now ≤ EVENTS }
    requires valid { IsTrue (list_all is_valid_event events.now) }
    requires distinct { AreDistinct (definition_at events.now) }
    requires lacks { IsTrue (lacks_rundown events.now) }
    ensures writes { TellsLast S.tells_taken S.taken (definition_at events.now) (with_rundown (definition_at events.now))
        (λ told. section stamp told) writer.old writer.new result }
    ensures counted { (before : List ℕ) (info : TraceInfo) (told : List Entry)
        → IsTelling S.tells_taken S.taken before (definition_at events.now) info told writer.old
        → IfOk result (λ count. count ≡ length (used told)) }
    ensures faulty { IsFaulty S.write_faults writer.old writer.new result }
    ensures other_side { S.read_side (sink_of writer.new) ≡ S.read_side (sink_of writer.old) }
{
    if let Some(fault) = writer.failed() {
        return Err(fault);
    }
    let Ok((rundown, numbers)) = prepare(alloc, writer.used()) else {
        writer.give_up();
        return Err(Fault::OutOfMemory);
    };
    describe_each(alloc, writer, events, &rundown, stamp, &numbers)?;
    Ok(numbers.len() as u32)
}

// The definition of the events that are written, and a copy of these numbers.
fn prepare(alloc: Global, numbers: &[u32]) -> Result<(EventDef, Vec<u32>), AllocError>
    ensures rundown { IfOk result (λ parts. parts.0 ≡ rundowns.rundown_def) }
    ensures numbers { IfOk result (λ parts. parts.1.items ≡ numbers.now) }
{
    let mut copy = Vec::new(alloc);
    copy.extend_from_slice(numbers)?;
    Ok((rundown_def(alloc)?, copy))
}

// Writes the event that describes each definition with one of these numbers, which have the metadata ids from 1 on.
fn describe_each<S: Sink>(
    alloc: Global,
    writer: &mut TraceWriter<S>,
    events: &[EventDef],
    rundown: &EventDef,
    stamp: u64,
    numbers: &[u32],
) -> Result<(), Fault>
    requires valid { IsTrue (list_all is_valid_event events.now) }
    requires rundown { rundown.now ≡ rundowns.rundown_def }
    requires few { length numbers.now ≤ LAST_EVENT + 1 }
    requires sound { fault_of writer.old ≡ None }
    ensures writes { (defs : ℕ → Option EventValue) (used : List EventValue) → AreUsed events.now numbers.now used defs
        → TellsNext S.tells_taken S.taken defs (describing_from stamp 1 used) writer.old writer.new result }
    ensures faulty { IsFaulty S.write_faults writer.old writer.new result }
    ensures other_side { S.read_side (sink_of writer.new) ≡ S.read_side (sink_of writer.old) }
{
    for place in 0..numbers.len() {
        let number = numbers[place] as usize;
        if number > 0 && number <= events.len() {
            describe_one(
                alloc,
                writer,
                &events[number - 1],
                rundown,
                stamp,
                place as u32 + 1,
            )?;
        }
    }
    Ok(())
}

// Writes the event that describes a definition with a metadata id.
fn describe_one<S: Sink>(
    alloc: Global,
    writer: &mut TraceWriter<S>,
    def: &EventDef,
    rundown: &EventDef,
    stamp: u64,
    id: u32,
) -> Result<(), Fault>
    requires valid { IsTrue (is_valid_event def.now) }
    requires rundown { rundown.now ≡ rundowns.rundown_def }
    requires not_zero { 0 < id }
    requires id_fits { id ≤ LAST_ID }
    requires sound { fault_of writer.old ≡ None }
    ensures writes { (defs : ℕ → Option EventValue) → AreDistinct defs → defs RUNDOWN_EVENT ≡ Some rundowns.rundown_def
        → TellsNext S.tells_taken S.taken defs (Event (describing stamp id def.now) ∷ []) writer.old writer.new result }
    ensures faulty { IsFaulty S.write_faults writer.old writer.new result }
    ensures other_side { S.read_side (sink_of writer.new) ≡ S.read_side (sink_of writer.old) }
{
    let Ok(payload) = description(alloc, id, def) else {
        writer.give_up();
        return Err(Fault::OutOfMemory);
    };
    let out = EventOut {
        event: RUNDOWN_EVENT,
        thread: 0,
        number: id,
        stamp,
        activity: [0; 16],
        related: [0; 16],
        frames: &[],
        payload: &payload,
    };
    writer.event(alloc, rundown, &out)
}
