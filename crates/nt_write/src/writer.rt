//! The writer of a stream.
ghost use Rattle.std.specs.Prelude.{◌≡◌, ◌≢◌, ℕ, ◌+◌, ◌%◌, ◌^◌, ◌<◌, ◌≤◌, ◌⊎◌, ◌↔◌, ◌++◌, List, [], ◌∷◌, length, Option, Some, None, Ok, Err, IsTrue, false, IfOk, IfErr, OnOk, OnErr, map};
ghost use Rattle.std.specs.List.{AllByRecursion};
ghost use Rattle.std.specs.Option.{option_map};
ghost use Rattle.ep_defs.specs.declared.limits.TheConstants.{FRAME_BYTES, PAYLOAD_BYTES};
ghost use Rattle.ep_defs.specs.declared.event.EventDef.{EventDef};
ghost use Rattle.ep_defs.specs.declared.session.TraceInfo.{TraceInfo};
ghost use Rattle.ep_defs.specs.Definitions.{AreDistinct};
ghost use Rattle.ep_defs.specs.Event.{is_valid_event, is_same_event};
ghost use Rattle.ep_defs.specs.Entry.{Event, Point};
ghost use Rattle.pt_io.specs.Faults.{HasRisen};
ghost use Rattle.nt_object.specs.Stream.{stream_start};
ghost use Rattle.nt_blocks.specs.declared.limits.TheConstants.{POINT_THREADS};
ghost use Rattle.nt_write.specs.declared.limits.TheConstants.{FRAMED_EVENTS, LAST_EVENT, STACK_BYTES};
ghost use Rattle.nt_write.specs.declared.fault.Fault.TheVariants.{WriteFault, TooLong, OutOfMemory};
ghost use Rattle.nt_write.specs.Layout.{event_draft};
ghost use Rattle.nt_write.specs.Writable.{CanWrite, CanPoint, framed};
ghost use Rattle.nt_write.specs.Arriving.{IsDefining, IsNew};
ghost use Rattle.nt_write.specs.Writing.{AreIds, TookAll, TookSome, IsCounted, id_at, arrival_for};
ghost use Rattle.nt_write.specs.Writer.{entry_of, point_of};

use crate::fault::Fault;
use crate::ids::IdTable;
use crate::output::Output;
use crate::pending::{Arrival, Pending};
use ep_defs::ranges::{bytes_fit, event_fits, info_fits};
use ep_defs::{Bytes, EventDef, Items, TraceInfo};
use nt_blocks::put_point;
use nt_head::HeadState;
use nt_meta::put_meta;
use nt_object::{BlockKind, put_start};
use nt_stacks::Interned;
use pt_io::Sink;
use std::alloc::{AllocError, Global};

/// One event, as it is written.
#[derive(Clone, Copy, Debug)]
pub struct EventOut<'a> {
    /// The number of the event's definition, from 1 to 1,001.
    pub event: u32,
    pub thread: u64,
    /// Its number among the events of the thread, from 1.
    pub number: u32,
    pub stamp: u64,
    pub activity: [u8; 16],
    pub related: [u8; 16],
    /// 8 bytes for each frame.
    pub frames: &'a [u8],
    pub payload: &'a [u8],
}

/// The writer of one stream into a sink.
///
/// Events are kept until a flush: a point, the end, or an event for which a body has no room left.
#[derive(Drop)]
pub struct TraceWriter<S: Sink> {
    output: Output<S>,
    fault: Option<Fault>,
    ids: IdTable,
    pending: Pending,
}

impl<S: Sink> TraceWriter<S> {
    ghost use Rattle.nt_object.specs.Stream.{blocks_bytes};
    ghost use Rattle.nt_write.specs.Layout.{id_in, flushed, with_event, with_point};
    ghost use Rattle.nt_write.specs.Value.{framed_with};
    ghost use Rattle.nt_write.specs.Adding.{IsReady, Adds, AddsPart, IfAt, IfDefining};
    ghost use Rattle.nt_write.specs.Arriving.{HasRoomFor, IsInterned, with_definition};
    ghost use Rattle.nt_write.specs.Writing.{IsAt, IsKept, HasRoom, ids_of, pending_of};
    ghost use Rattle.nt_write.specs.Writer.{fault_of, sink_of, Extends, IfWriting, IsWriting, StaysFailed, TellsWriteFault, TookPart, TookStream};
    ghost use Rattle.ep_rundown.specs.Rundown.{used};
    ghost use Rattle.nt_write.specs.Sinks.{with_sink, HasTakenSame};

    /// Writes the stream's start, 102 bytes in one write. The sink comes back where that fails.
    pub fn begin(alloc: Global, sink: S, info: &TraceInfo) -> Result<TraceWriter<S>, (S, Fault)>
        ensures ok { IfOk result (λ writer. (defs : ℕ → Option EventDef)
            → IsWriting S.tells_taken S.taken (S.taken sink) defs info.now [] writer) }
        ensures part { IfErr result (λ failed. TookPart S.tells_taken S.taken (S.taken sink) info.now [] failed.0) }
        ensures write_fault { IfErr result (λ failed. failed.1 ≡ WriteFault
            → HasRisen (S.write_faults sink) (S.write_faults failed.0)) }
        ensures not_long { IfErr result (λ failed. failed.1 ≢ TooLong) }
        ensures memory { IfErr result (λ failed. failed.1 ≡ OutOfMemory
            → S.write_faults failed.0 ≡ S.write_faults sink) }
        ensures wrote { IfOk result (λ writer. S.write_faults (sink_of writer) ≡ S.write_faults sink) }
        ensures later { IfErr result (λ failed. S.write_faults sink ≤ S.write_faults failed.0) }
        ensures told { IfOk result (λ writer. S.tells_taken (sink_of writer) ≡ S.tells_taken sink) }
        ensures told_back { IfErr result (λ failed. S.tells_taken failed.0 ≡ S.tells_taken sink) }
        ensures other_side { IfOk result (λ writer. S.read_side (sink_of writer) ≡ S.read_side sink) }
    {
        info_fits(info);
        let mut sink = sink;
        match write_start(alloc, &mut sink, info) {
            Ok(ids) => Ok(TraceWriter {
                output: Output::new(alloc, sink),
                fault: None,
                ids,
                pending: Pending::new(alloc),
            }),
            Err(fault) => Err((sink, fault)),
        }
    }

    /// Writes one event of a definition. Two events have the same number of a definition exactly where their
    /// definitions are the same.
    ///
    /// It answers [`Fault::TooLong`] for an event with frames where 2,147,483,646 others had frames since the last
    /// point. After a fault the writer answers that fault from then on and writes nothing more.
    pub fn event(&mut self, alloc: Global, def: &EventDef, out: &EventOut) -> Result<(), Fault>
        requires valid { IsTrue (is_valid_event def.now) }
        requires event { out.now.event ≤ LAST_EVENT }
        requires number { 0 < out.now.number }
        requires frames { length out.now.frames.now ≤ STACK_BYTES }
        requires whole { length out.now.frames.now % FRAME_BYTES ≡ 0 }
        requires payload { length out.now.payload.now ≤ PAYLOAD_BYTES }

        ensures ok { IfWriting S.Sink self.old (λ before defs info entries.
            AreDistinct defs → defs out.now.event ≡ Some def.now
            → OnOk result (IsWriting S.tells_taken S.taken before defs info
            (entries ++ Event (entry_of def.now out.now) ∷ []) self.new)) }
        ensures part { IfWriting S.Sink self.old (λ before defs info entries.
            AreDistinct defs → defs out.now.event ≡ Some def.now
            → OnErr result (TookPart S.tells_taken S.taken before info
            (entries ++ Event (entry_of def.now out.now) ∷ []) (sink_of self.new))) }
        ensures fails { IfErr result (λ fault. fault_of self.new ≡ Some fault) }
        ensures sound { OnOk result (fault_of self.new ≡ None) }
        ensures stays { StaysFailed self.old self.new result }
        ensures write_fault { TellsWriteFault S.write_faults self.old self.new result }
        ensures too_long { IfWriting S.Sink self.old (λ before defs info entries.
            (result ≡ Err TooLong) ↔ ((0 < length out.now.frames.now) × (framed entries ≡ FRAMED_EVENTS))) }
        ensures wrote { result ≢ Err WriteFault
            → S.write_faults (sink_of self.new) ≡ S.write_faults (sink_of self.old) }
        ensures later { S.write_faults (sink_of self.old) ≤ S.write_faults (sink_of self.new) }
        ensures other_side { S.read_side (sink_of self.new) ≡ S.read_side (sink_of self.old) }
    {
        if let Some(fault) = self.fault {
            return Err(fault);
        }
        self.sound_event(alloc, def, out)
    }

    /// Writes one event as [`TraceWriter::event`] does, where the writer has not failed.
    #[inline(always)]
    pub fn sound_event(
        &mut self,
        alloc: Global,
        def: &EventDef,
        out: &EventOut,
    ) -> Result<(), Fault>
        requires sound { fault_of self.old ≡ None }
        requires valid { IsTrue (is_valid_event def.now) }
        requires event { out.now.event ≤ LAST_EVENT }
        requires number { 0 < out.now.number }
        requires frames { length out.now.frames.now ≤ STACK_BYTES }
        requires whole { length out.now.frames.now % FRAME_BYTES ≡ 0 }
        requires payload { length out.now.payload.now ≤ PAYLOAD_BYTES }

        ensures ok { IfWriting S.Sink self.old (λ before defs info entries.
            AreDistinct defs → defs out.now.event ≡ Some def.now
            → OnOk result (IsWriting S.tells_taken S.taken before defs info
            (entries ++ Event (entry_of def.now out.now) ∷ []) self.new)) }
        ensures part { IfWriting S.Sink self.old (λ before defs info entries.
            AreDistinct defs → defs out.now.event ≡ Some def.now
            → OnErr result (TookPart S.tells_taken S.taken before info
            (entries ++ Event (entry_of def.now out.now) ∷ []) (sink_of self.new))) }
        ensures fails { IfErr result (λ fault. fault_of self.new ≡ Some fault) }
        ensures sound { OnOk result (fault_of self.new ≡ None) }
        ensures write_fault { result ≡ Err WriteFault
            → HasRisen (S.write_faults (sink_of self.old)) (S.write_faults (sink_of self.new)) }
        ensures too_long { IfWriting S.Sink self.old (λ before defs info entries.
            (result ≡ Err TooLong) ↔ ((0 < length out.now.frames.now) × (framed entries ≡ FRAMED_EVENTS))) }
        ensures wrote { result ≢ Err WriteFault
            → S.write_faults (sink_of self.new) ≡ S.write_faults (sink_of self.old) }
        ensures later { S.write_faults (sink_of self.old) ≤ S.write_faults (sink_of self.new) }
        ensures other_side { S.read_side (sink_of self.new) ≡ S.read_side (sink_of self.old) }
    {
        note_ranges(def, out);
        match self.take_event(alloc, def, out) {
            Ok(()) => Ok(()),
            Err(fault) => {
                self.fault = Some(fault);
                Err(fault)
            }
        }
    }

    /// Flushes, writes how far each thread had come, and forgets the stacks. It needs at most 1,000,001 threads.
    pub fn point(&mut self, alloc: Global, stamp: u64, threads: &[(u64, u32)]) -> Result<(), Fault>
        requires { length threads.now ≤ POINT_THREADS }

        ensures ok { IfWriting S.Sink self.old (λ before defs info entries.
            OnOk result (IsWriting S.tells_taken S.taken before defs info
            (entries ++ Point (point_of stamp threads.now) ∷ []) self.new)) }
        ensures part { IfWriting S.Sink self.old (λ before defs info entries.
            OnErr result (TookPart S.tells_taken S.taken before info
            (entries ++ Point (point_of stamp threads.now) ∷ []) (sink_of self.new))) }
        ensures fails { IfErr result (λ fault. fault_of self.new ≡ Some fault) }
        ensures sound { OnOk result (fault_of self.new ≡ None) }
        ensures stays { StaysFailed self.old self.new result }
        ensures write_fault { TellsWriteFault S.write_faults self.old self.new result }
        ensures too_long { result ≡ Err TooLong → fault_of self.old ≡ Some TooLong }
        ensures wrote { result ≢ Err WriteFault
            → S.write_faults (sink_of self.new) ≡ S.write_faults (sink_of self.old) }
        ensures later { S.write_faults (sink_of self.old) ≤ S.write_faults (sink_of self.new) }
        ensures other_side { S.read_side (sink_of self.new) ≡ S.read_side (sink_of self.old) }
    {
        if let Some(fault) = self.fault {
            return Err(fault);
        }
        note_threads(stamp, threads);
        let written = self.write_point(alloc, stamp, threads);
        self.fault = written.err();
        written
    }

    /// Flushes, writes the end of the stream, and gives the sink back.
    pub fn end(self, alloc: Global) -> (S, Result<(), Fault>)
        ensures ok { IfWriting S.Sink self (λ before defs info entries.
            OnOk result.1 (TookStream S.tells_taken S.taken before info entries result.0)) }
        ensures part { IfWriting S.Sink self (λ before defs info entries.
            OnErr result.1 (TookPart S.tells_taken S.taken before info entries result.0)) }
        ensures stays { (fault : _) → fault_of self ≡ Some fault
            → (result.1 ≡ Err fault) × (result.0 ≡ sink_of self) }
        ensures write_fault { result.1 ≡ Err WriteFault → (fault_of self ≡ Some WriteFault)
            ⊎ HasRisen (S.write_faults (sink_of self)) (S.write_faults result.0) }
        ensures too_long { result.1 ≡ Err TooLong → fault_of self ≡ Some TooLong }
        ensures wrote { result.1 ≢ Err WriteFault → S.write_faults result.0 ≡ S.write_faults (sink_of self) }
        ensures later { S.write_faults (sink_of self) ≤ S.write_faults result.0 }
        ensures other_side { S.read_side result.0 ≡ S.read_side (sink_of self) }
    {
        let mut writer = self;
        let result = match writer.fault {
            Some(fault) => Err(fault),
            None => writer.finish(alloc),
        };
        let TraceWriter {
            output,
            fault: _,
            ids: _,
            pending: _,
        } = writer;
        (output.into_sink(), result)
    }

    /// Puts another sink in the place of the writer's, which it gives back. So a caller moves on what a sink keeps: the
    /// stream goes on where the sink that comes in has taken the same.
    pub fn replace_sink(&mut self, sink: S) -> S
        ensures given { result ≡ sink_of self.old }
        ensures placed { self.new ≡ with_sink self.old sink }
        ensures goes_on { (other : S) → HasTakenSame S.Sink (sink_of self.old) other
            → IfWriting S.Sink self.old (λ before defs info entries.
            IsWriting S.tells_taken S.taken before defs info entries (with_sink self.old other)) }
        ensures part { IfWriting S.Sink self.old (λ before defs info entries.
            TookPart S.tells_taken S.taken before info entries result) }
    {
        self.output.replace_sink(sink)
    }

    /// The numbers of the definitions that its events named so far, in the order of their metadata ids, which are 1, 2,
    /// 3, ..
    pub fn used(&self) -> &[u32]
        ensures named { IfWriting S.Sink self.now (λ before defs info entries.
            map defs result.now ≡ map Some (used entries)) }
        ensures goes_on { (more : ℕ → Option EventDef) → IfWriting S.Sink self.now (λ before defs info entries.
            Extends (used entries) defs more → IsWriting S.tells_taken S.taken before more info entries self.now) }
        ensures few { length result.now ≤ LAST_EVENT + 1 }
    {
        self.ids.numbers()
    }

    /// Gives the stream up, for a caller that has no memory for what was to be written: from then on the writer answers
    /// that fault and writes nothing more.
    pub fn give_up(&mut self)
        requires { fault_of self.old ≡ None }
        ensures fault { fault_of self.new ≡ Some OutOfMemory }
        ensures sink { sink_of self.new ≡ sink_of self.old }
        ensures part { IfWriting S.Sink self.old (λ before defs info entries.
            TookPart S.tells_taken S.taken before info entries (sink_of self.new)) }
    {
        self.fault = Some(Fault::OutOfMemory);
    }

    /// The fault that the writer answered, if it did.
    pub fn failed(&self) -> Option<Fault>
        ensures { result ≡ fault_of self.now }
    {
        self.fault
    }

    // Writes an event, unless too many had frames since the last point.
    fn take_event(&mut self, alloc: Global, def: &EventDef, out: &EventOut) -> Result<(), Fault>
        requires valid { IsTrue (is_valid_event def.now) }
        requires event { out.now.event ≤ LAST_EVENT }
        requires frames { length out.now.frames.now ≤ STACK_BYTES }
        requires payload { length out.now.payload.now ≤ PAYLOAD_BYTES }

        ensures ok { Adds S.tells_taken S.taken (λ start defs layout. IsAt S.tells_taken S.taken start defs layout self.old) def.now out.now self.new result }
        ensures framed { OnOk result ((pending_of self.new).stacks.framed
            ≡ framed_with (pending_of self.old).stacks.framed out.now.frames.now) }
        ensures part { AddsPart S.tells_taken S.taken (λ start defs layout. IsAt S.tells_taken S.taken start defs layout self.old) def.now out.now self.new result }
        ensures too_long { (result ≡ Err TooLong) ↔ ((0 < length out.now.frames.now)
            × ((pending_of self.old).stacks.framed ≡ FRAMED_EVENTS)) }
        ensures wrote { result ≢ Err WriteFault
            → S.write_faults (sink_of self.new) ≡ S.write_faults (sink_of self.old) }
        ensures write_fault { result ≡ Err WriteFault
            → HasRisen (S.write_faults (sink_of self.old)) (S.write_faults (sink_of self.new)) }
        ensures later { S.write_faults (sink_of self.old) ≤ S.write_faults (sink_of self.new) }
        ensures other_side { S.read_side (sink_of self.new) ≡ S.read_side (sink_of self.old) }
        ensures fault { fault_of self.new ≡ fault_of self.old }
    {
        if !out.frames.is_empty() && self.pending.stacks.are_spent() {
            return Err(Fault::TooLong);
        }
        self.add_event(alloc, def, out)
    }

    // Adds an event, with its definition and its stack where they are new.
    fn add_event(&mut self, alloc: Global, def: &EventDef, out: &EventOut) -> Result<(), Fault>
        requires valid { IsTrue (is_valid_event def.now) }
        requires event { out.now.event ≤ LAST_EVENT }
        requires frames { length out.now.frames.now ≤ STACK_BYTES }
        requires payload { length out.now.payload.now ≤ PAYLOAD_BYTES }
        requires not_spent { (out.now.frames.now ≡ [])
            ⊎ ((pending_of self.old).stacks.framed < FRAMED_EVENTS) }

        ensures ok { Adds S.tells_taken S.taken (λ start defs layout. IsAt S.tells_taken S.taken start defs layout self.old) def.now out.now self.new result }
        ensures framed { OnOk result ((pending_of self.new).stacks.framed
            ≡ framed_with (pending_of self.old).stacks.framed out.now.frames.now) }
        ensures part { AddsPart S.tells_taken S.taken (λ start defs layout. IsAt S.tells_taken S.taken start defs layout self.old) def.now out.now self.new result }
        ensures counted { IsCounted S.write_faults (sink_of self.old) (sink_of self.new) result }
        ensures other_side { S.read_side (sink_of self.new) ≡ S.read_side (sink_of self.old) }
        ensures fault { fault_of self.new ≡ fault_of self.old }
    {
        let id = self.ids.get(out.event);
        if id != 0 && out.frames.is_empty() {
            return self.add_known(alloc, id, 0, out);
        }
        let stack = self.pending.stacks.id_of(alloc, out.frames)?;
        if id != 0 && !stack.is_new {
            return self.add_known(alloc, id, stack.id, out);
        }
        self.add_copied(alloc, def, &stack, out)
    }

    // Makes room, and adds an event whose definition and whose stack have these ids. In line at both places, as it is
    // nearly all that most events need.
    #[inline(always)]
    fn add_known(&mut self, alloc: Global, id: u32, stack: u32, out: &EventOut) -> Result<(), Fault>
        requires given { (0 < id) × (id ≡ id_at (ids_of self.old) out.now.event) }
        requires payload { length out.now.payload.now ≤ PAYLOAD_BYTES }

        ensures ok { (def : EventDef) → Adds S.tells_taken S.taken (λ start defs layout. IsReady S.tells_taken S.taken start defs layout out.now.frames.now (record { id = stack; is_new = false }) self.old) def out.now self.new result }
        ensures part { (def : EventDef) → AddsPart S.tells_taken S.taken (λ start defs layout. IsReady S.tells_taken S.taken start defs layout out.now.frames.now (record { id = stack; is_new = false }) self.old) def out.now self.new result }
        ensures framed { OnOk result ((pending_of self.new).stacks.framed ≡ (pending_of self.old).stacks.framed) }
        ensures counted { IsCounted S.write_faults (sink_of self.old) (sink_of self.new) result }
        ensures other_side { S.read_side (sink_of self.new) ≡ S.read_side (sink_of self.old) }
        ensures fault { fault_of self.new ≡ fault_of self.old }
    {
        let arrival = Arrival {
            payload: out.payload.len(),
            meta: None,
            stack: None,
        };
        self.output.make_room(alloc, &mut self.pending, &arrival)?;
        self.pending
            .add_event(&event_head(id, stack, out), out.payload)?;
        Ok(())
    }

    // The same of an event of which the definition or the stack, which has its id, is new. It is copied, in a function of
    // its own, so that the event is put together in memory, and memory is cleared for it, on this way alone.
    #[inline(always)]
    fn add_copied(
        &mut self,
        alloc: Global,
        def: &EventDef,
        stack: &Interned,
        out: &EventOut,
    ) -> Result<(), Fault>
        requires valid { IsTrue (is_valid_event def.now) }
        requires event { out.now.event ≤ LAST_EVENT }
        requires frames { length out.now.frames.now ≤ STACK_BYTES }
        requires payload { length out.now.payload.now ≤ PAYLOAD_BYTES }
        requires next { IsTrue stack.now.is_new
            → (pending_of self.old).stacks.first + length (pending_of self.old).stacks.fresh ≤ length (pending_of self.old).stacks.known }

        ensures ok { Adds S.tells_taken S.taken (λ start defs layout. IsReady S.tells_taken S.taken start defs layout out.now.frames.now stack.now self.old) def.now out.now self.new result }
        ensures framed { OnOk result ((pending_of self.new).stacks.framed ≡ (pending_of self.old).stacks.framed) }
        ensures part { AddsPart S.tells_taken S.taken (λ start defs layout. IsReady S.tells_taken S.taken start defs layout out.now.frames.now stack.now self.old) def.now out.now self.new result }
        ensures counted { IsCounted S.write_faults (sink_of self.old) (sink_of self.new) result }
        ensures other_side { S.read_side (sink_of self.new) ≡ S.read_side (sink_of self.old) }
        ensures fault { fault_of self.new ≡ fault_of self.old }
    {
        let out = *out;
        self.add_new(alloc, def, stack, &out)
    }

    // Makes room, and adds an event of which the definition or the stack, which has its id, is new.
    #[inline(never)]
    fn add_new(
        &mut self,
        alloc: Global,
        def: &EventDef,
        stack: &Interned,
        out: &EventOut,
    ) -> Result<(), Fault>
        requires valid { IsTrue (is_valid_event def.now) }
        requires event { out.now.event ≤ LAST_EVENT }
        requires frames { length out.now.frames.now ≤ STACK_BYTES }
        requires payload { length out.now.payload.now ≤ PAYLOAD_BYTES }
        requires next { IsTrue stack.now.is_new
            → (pending_of self.old).stacks.first + length (pending_of self.old).stacks.fresh ≤ length (pending_of self.old).stacks.known }

        ensures ok { Adds S.tells_taken S.taken (λ start defs layout. IsReady S.tells_taken S.taken start defs layout out.now.frames.now stack.now self.old) def.now out.now self.new result }
        ensures framed { OnOk result ((pending_of self.new).stacks.framed ≡ (pending_of self.old).stacks.framed) }
        ensures part { AddsPart S.tells_taken S.taken (λ start defs layout. IsReady S.tells_taken S.taken start defs layout out.now.frames.now stack.now self.old) def.now out.now self.new result }
        ensures counted { IsCounted S.write_faults (sink_of self.old) (sink_of self.new) result }
        ensures other_side { S.read_side (sink_of self.new) ≡ S.read_side (sink_of self.old) }
        ensures fault { fault_of self.new ≡ fault_of self.old }
    {
        let meta = new_meta(alloc, &self.ids, def, out.event)?;
        let arrival = arrival_of(out, &meta, stack);
        self.output.make_room(alloc, &mut self.pending, &arrival)?;
        self.enter(alloc, &meta, stack, out)?;
        Ok(())
    }

    // Adds an event for which there is room, with its definition and its stack where they are new.
    fn enter(
        &mut self,
        alloc: Global,
        meta: &Option<Bytes>,
        stack: &Interned,
        out: &EventOut,
    ) -> Result<(), AllocError>
        requires event { out.now.event ≤ LAST_EVENT }
        requires payload { length out.now.payload.now ≤ PAYLOAD_BYTES }
        requires room { HasRoom (arrival_for out.now meta.now stack.now) (pending_of self.old) }
        requires next { IsTrue stack.now.is_new
            → (pending_of self.old).stacks.first + length (pending_of self.old).stacks.fresh ≤ length (pending_of self.old).stacks.known }
        requires defining { (payload : List ℕ) → meta.now ≡ Some payload
            → (def : EventDef) × IsDefining def payload }
        requires free { (payload : List ℕ) → meta.now ≡ Some payload
            → id_at (ids_of self.old) out.now.event ≡ 0 }
        requires given { meta.now ≡ None → 0 < id_at (ids_of self.old) out.now.event }

        ensures ok { IfDefining S.Sink out.now.event meta.now self.old (λ start defs layout def.
            IsInterned layout.stacks out.now.frames.now stack.now → OnOk result (IsKept S.tells_taken S.taken
            start defs (with_event layout (entry_of def out.now)) self.new)) }
        ensures known { OnOk result ((pending_of self.new).stacks.known ≡ (pending_of self.old).stacks.known) }
        ensures framed { OnOk result ((pending_of self.new).stacks.framed ≡ (pending_of self.old).stacks.framed) }
        ensures sink { sink_of self.new ≡ sink_of self.old }
        ensures fault { fault_of self.new ≡ fault_of self.old }
    {
        self.pending.keep_stack(alloc, stack, out.frames)?;
        let id = self.define(out.event, meta)?;
        self.pending
            .add_event(&event_head(id, stack.id, out), out.payload)
    }

    // Defines an event at its first use, and answers the id of its definition.
    fn define(&mut self, event: u32, meta: &Option<Bytes>) -> Result<u32, AllocError>
        requires event { event ≤ LAST_EVENT }
        requires defining { (payload : List ℕ) → meta.now ≡ Some payload
            → (def : EventDef) × IsDefining def payload }
        requires room { (payload : List ℕ) → meta.now ≡ Some payload
            → HasRoomFor (length payload) (pending_of self.old).metadata }
        requires free { (payload : List ℕ) → meta.now ≡ Some payload → id_at (ids_of self.old) event ≡ 0 }
        requires given { meta.now ≡ None → 0 < id_at (ids_of self.old) event }

        ensures positive { IfOk result (λ id. 0 < id) }
        ensures id { IfDefining S.Sink event meta.now self.old (λ start defs layout def.
            IfOk result (λ id. id ≡ id_in is_same_event def (with_definition layout def).definitions)) }
        ensures ok { IfDefining S.Sink event meta.now self.old (λ start defs layout def.
            OnOk result (IsKept S.tells_taken S.taken start defs (with_definition layout def) self.new)) }
        ensures events { (pending_of self.new).events ≡ (pending_of self.old).events }
        ensures stacks { (pending_of self.new).stacks ≡ (pending_of self.old).stacks }
        ensures sink { sink_of self.new ≡ sink_of self.old }
        ensures fault { fault_of self.new ≡ fault_of self.old }
    {
        match meta {
            None => Ok(self.ids.get(event)),
            Some(payload) => {
                self.pending.add_definition(payload.as_slice())?;
                Ok(self.ids.give(event))
            }
        }
    }

    fn write_point(
        &mut self,
        alloc: Global,
        stamp: u64,
        threads: &[(u64, u32)],
    ) -> Result<(), Fault>
        requires { length threads.now ≤ POINT_THREADS }

        ensures ok { IfAt S.Sink self.old (λ start defs layout.
            OnOk result (IsAt S.tells_taken S.taken start defs (with_point layout (point_of stamp threads.now)) self.new)) }
        ensures framed { OnOk result ((pending_of self.new).stacks.framed ≡ 0) }
        ensures part { IfAt S.Sink self.old (λ start defs layout.
            OnErr result (TookSome S.tells_taken S.taken start
            (blocks_bytes (with_point layout (point_of stamp threads.now)).blocks) (sink_of self.new))) }
        ensures counted { IsCounted S.write_faults (sink_of self.old) (sink_of self.new) result }
        ensures other_side { S.read_side (sink_of self.new) ≡ S.read_side (sink_of self.old) }
    {
        self.output.flush(alloc, &mut self.pending)?;
        let mut body = Vec::new(alloc);
        put_point(&mut body, stamp, threads)?;
        self.output.write_block(BlockKind::Point, &body)?;
        self.pending.stacks.forget();
        Ok(())
    }

    fn finish(&mut self, alloc: Global) -> Result<(), Fault>
        ensures ok { IfAt S.Sink self.old (λ start defs layout.
            OnOk result (TookAll S.tells_taken S.taken start
            (blocks_bytes (flushed layout).blocks ++ 1 ∷ []) (sink_of self.new))) }
        ensures part { IfAt S.Sink self.old (λ start defs layout.
            OnErr result (TookSome S.tells_taken S.taken start
            (blocks_bytes (flushed layout).blocks ++ 1 ∷ []) (sink_of self.new))) }
        ensures counted { IsCounted S.write_faults (sink_of self.old) (sink_of self.new) result }
        ensures other_side { S.read_side (sink_of self.new) ≡ S.read_side (sink_of self.old) }
    {
        let output = &mut self.output;
        output.flush(alloc, &mut self.pending)?;
        output.write_end()
    }
}

// Writes the stream's start in one write, and makes the table for what follows.
fn write_start<S: Sink>(alloc: Global, sink: &mut S, info: &TraceInfo) -> Result<IdTable, Fault>
    ensures ids { (defs : ℕ → Option EventDef) → IfOk result (λ ids. AreIds defs [] ids) }
    ensures ok { OnOk result (TookAll S.tells_taken S.taken (S.taken sink.old) (stream_start info.now) sink.new) }
    ensures part { OnErr result (TookSome S.tells_taken S.taken (S.taken sink.old) (stream_start info.now) sink.new) }
    ensures counted { IsCounted S.write_faults sink.old sink.new result }
    ensures told { S.tells_taken sink.new ≡ S.tells_taken sink.old }
    ensures other_side { S.read_side sink.new ≡ S.read_side sink.old }
{
    let ids = IdTable::new(alloc)?;
    let mut bytes = Vec::new(alloc);
    put_start(&mut bytes, info)?;
    sink.write(&bytes)?;
    Ok(ids)
}

// Reads the parts of an event, since the ranges of their types are what a stream needs of them.
fn note_ranges(def: &EventDef, out: &EventOut)
    requires valid { IsTrue (is_valid_event def.now) }
    requires frames { length out.now.frames.now ≤ STACK_BYTES }
    requires whole { length out.now.frames.now % FRAME_BYTES ≡ 0 }
    requires payload { length out.now.payload.now ≤ PAYLOAD_BYTES }
    ensures { CanWrite (entry_of def.now out.now) }
{
    event_fits(def);
    bytes_fit(&out.activity);
    bytes_fit(&out.related);
    bytes_fit(out.frames);
    bytes_fit(out.payload);
    let _thread = out.thread;
    let _number = out.number;
    let _stamp = out.stamp;
}

// The same of a point.
fn note_threads(stamp: u64, threads: &[(u64, u32)])
    requires { length threads.now ≤ POINT_THREADS }
    ensures { CanPoint (point_of stamp threads.now) }
{
    let _stamp = stamp;
    threads_fit(threads);
}

fn threads_fit(threads: &[(u64, u32)])
    ensures { AllByRecursion (λ thread. (thread.0 < 2 ^ 64) × (thread.1 < 2 ^ 32)) threads.now }
{
    for (thread, number) in threads {
        let _thread = *thread;
        let _number = *number;
    }
}

// The payload that defines an event, where it has no id yet.
fn new_meta(
    alloc: Global,
    ids: &IdTable,
    def: &EventDef,
    number: u32,
) -> Result<Option<Bytes>, AllocError>
    requires valid { IsTrue (is_valid_event def.now) }
    requires number { number ≤ LAST_EVENT }
    ensures new { (defs : ℕ → Option EventDef) (definitions : List EventDef)
        → AreIds defs definitions ids.now → defs number ≡ Some def.now
        → IfOk result (λ meta. IsNew definitions def.now meta) }
    ensures defining { IfOk result (λ meta. (payload : List ℕ) → meta ≡ Some payload
        → IsDefining def.now payload) }
    ensures free { IfOk result (λ meta. (payload : List ℕ) → meta ≡ Some payload → id_at ids.now number ≡ 0) }
    ensures given { IfOk result (λ meta. meta ≡ None → 0 < id_at ids.now number) }
{
    if ids.get(number) != 0 {
        return Ok(None);
    }
    let mut payload = Vec::new(alloc);
    put_meta(&mut payload, ids.next(), def)?;
    Ok(Some(Items::new(payload)))
}

// How many bytes an event brings.
fn arrival_of(out: &EventOut, meta: &Option<Bytes>, stack: &Interned) -> Arrival
    ensures { result ≡ arrival_for out.now meta.now stack.now }
{
    Arrival {
        payload: out.payload.len(),
        meta: len_of(meta),
        stack: if stack.is_new {
            Some(out.frames.len())
        } else {
            None
        },
    }
}

fn len_of(bytes: &Option<Bytes>) -> Option<usize>
    ensures { result ≡ option_map (λ bytes. length bytes) bytes.now }
{
    match bytes {
        Some(bytes) => Some(bytes.as_slice().len()),
        None => None,
    }
}

// The thread of an event is the one that wrote it.
fn event_head(id: u32, stack: u32, out: &EventOut) -> HeadState
    requires { length out.now.payload.now ≤ PAYLOAD_BYTES }
    ensures state { (def : EventDef) → result ≡ (event_draft id stack (entry_of def out.now)).state }
    ensures metadata { result.metadata ≡ id }
    ensures size { result.size ≡ length out.now.payload.now }
{
    HeadState {
        metadata: id,
        number: out.number,
        capture: out.thread,
        processor: 0,
        thread: out.thread,
        stack,
        stamp: out.stamp,
        activity: out.activity,
        related: out.related,
        sorted: false,
        size: out.payload.len() as u32,
    }
}
