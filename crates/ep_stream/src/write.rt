//! How records become events of a stream.
ghost use Rattle.std.specs.Prelude.{◌≡◌, ◌≤◌, [], None, length, All, IsTrue, if◌then◌else◌};
ghost use Rattle.std.specs.List.{list_all};
ghost use Rattle.ep_defs.specs.Definitions.{AreDistinct, definition_at};
ghost use Rattle.ep_defs.specs.Event.{is_valid_event};
ghost use Rattle.ep_chunk.specs.Record.{Record};
ghost use Rattle.ep_chunk.specs.Places.{Tells as TellsRecord};
ghost use Rattle.ep_slot.specs.Chain.{records_of};
ghost use Rattle.nt_write.specs.Writer.{fault_of, sink_of};
ghost use Rattle.ep_stream.specs.Telling.{TellsNext, IsWritable, CanBeRead, IsFaulty, entry_of, entries_of};

use ep_chunk::{Chain, Chunk, RecOut};
use ep_defs::EventDef;
use ep_defs::limits::EVENTS;
use nt_write::{EventOut, Fault, TraceWriter};
use pt_io::Sink;
use std::alloc::Global;

// The stack of a record in a stream with stacks or without.
fn stack<'a>(rec: &RecOut<'a>, stacks: bool) -> &'a [u8]
    ensures { result.now ≡ (if stacks then rec.now.frames.now else []) }
{
    if stacks { rec.frames } else { &[] }
}

// Writes the event of a record, with its stack or without.
fn write_record<S: Sink>(
    alloc: Global,
    writer: &mut TraceWriter<S>,
    events: &[EventDef],
    stacks: bool,
    rec: &RecOut,
) -> Result<(), Fault>
    requires few { length events.now ≤ EVENTS }
    requires valid { IsTrue (list_all is_valid_event events.now) }
    requires distinct { AreDistinct (definition_at events.now) }
    requires record { CanBeRead events.now rec.now }
    ensures writes { (r : Record) → TellsRecord r rec.now
        → TellsNext S.tells_taken S.taken (definition_at events.now) (entry_of events.now stacks r) writer.old writer.new result }
    ensures faulty { IsFaulty S.write_faults writer.old writer.new result }
    ensures other_side { S.read_side (sink_of writer.new) ≡ S.read_side (sink_of writer.old) }
{
    let out = EventOut {
        event: rec.event,
        thread: rec.thread,
        number: rec.number,
        stamp: rec.stamp,
        activity: rec.activity,
        related: rec.related,
        frames: stack(rec, stacks),
        payload: rec.payload,
    };
    writer.event(alloc, &events[rec.event as usize - 1], &out)
}

// Writes the events of a chunk's records.
fn write_chunk<S: Sink>(
    alloc: Global,
    writer: &mut TraceWriter<S>,
    events: &[EventDef],
    stacks: bool,
    chunk: &Chunk,
) -> Result<(), Fault>
    requires few { length events.now ≤ EVENTS }
    requires valid { IsTrue (list_all is_valid_event events.now) }
    requires distinct { AreDistinct (definition_at events.now) }
    requires records { All (IsWritable events.now) chunk.now }
    requires sound { fault_of writer.old ≡ None }
    ensures writes { TellsNext S.tells_taken S.taken (definition_at events.now) (entries_of events.now stacks chunk.now)
        writer.old writer.new result }
    ensures faulty { IsFaulty S.write_faults writer.old writer.new result }
    ensures other_side { S.read_side (sink_of writer.new) ≡ S.read_side (sink_of writer.old) }
{
    let mut place = 0;
    while let Some(rec) = chunk.at(place) {
        write_record(alloc, writer, events, stacks, &rec)?;
        place = rec.next;
    }
    Ok(())
}

/// Writes the events of a chain's records, chunk by chunk, as they stand there. A writer that has failed answers its
/// fault.
pub(crate) fn write_chain<S: Sink>(
    alloc: Global,
    writer: &mut TraceWriter<S>,
    events: &[EventDef],
    stacks: bool,
    chain: &Chain,
) -> Result<(), Fault>
    requires few { length events.now ≤ EVENTS }
    requires valid { IsTrue (list_all is_valid_event events.now) }
    requires distinct { AreDistinct (definition_at events.now) }
    requires records { All (IsWritable events.now) (records_of chain.now) }
    ensures writes { TellsNext S.tells_taken S.taken (definition_at events.now) (entries_of events.now stacks (records_of chain.now))
        writer.old writer.new result }
    ensures faulty { IsFaulty S.write_faults writer.old writer.new result }
    ensures other_side { S.read_side (sink_of writer.new) ≡ S.read_side (sink_of writer.old) }
{
    if let Some(fault) = writer.failed() {
        return Err(fault);
    }
    for place in 0..chain.count() {
        let Some(chunk) = chain.chunk(place) else {
            unreachable!();
        };
        write_chunk(alloc, writer, events, stacks, chunk)?;
    }
    Ok(())
}
