//! The writer of one stream, whose bytes wait to be pulled.
ghost use Rattle.std.specs.Prelude.{◌≡◌, ℕ, ◌++◌, List, [], ◌∷◌, length, take, drop, min, true, false, ◌⊎◌, ◌↔◌, Some, None, Ok, Err, IsSome, is_none, IsTrue, IfOk, OnOk, OnErr};
ghost use Rattle.ep_defs.specs.declared.event.EventDef.{EventDef};
ghost use Rattle.ep_defs.specs.declared.session.TraceInfo.{TraceInfo};
ghost use Rattle.ep_defs.specs.Definitions.{AreDistinct, definition_at};
ghost use Rattle.ep_defs.specs.Entry.{Entry, Event, Point};
ghost use Rattle.ep_defs.specs.Event.{is_same_event};
ghost use Rattle.nt_write.specs.Layout.{id_in, with_member};
ghost use Rattle.nt_write.specs.Sinks.{with_sink};
ghost use Rattle.nt_write.specs.Writer.{point_of, sink_of};
ghost use Rattle.tp_c.specs.declared.recorder.Stage.TheVariants.{Open};
ghost use Rattle.tp_c.specs.declared.refusal.Refusal.{Refusal};
ghost use Rattle.tp_c.specs.declared.refusal.Refusal.TheVariants.{Cut, OutOfMemory};
ghost use Rattle.tp_c.specs.Counting.{thread_refused};
ghost use Rattle.tp_c.specs.Shapes.{definition_of};
ghost use Rattle.tp_c.specs.Outgoing.{after_pull};
ghost use Rattle.tp_c.specs.Recording as said;
ghost use Rattle.tp_c.specs.Recording.{StandsFor, IsOpen, IsBegun, bytes_of, is_over_stage, is_cut_stage};

use crate::catalog::Catalog;
use crate::outlet::Outlet;
use crate::refusal::Refusal;
use crate::shapes::{Definition, EventHead, Field};
use crate::threads::Threads;
use ep_defs::limits::{FRAME_BYTES, PAYLOAD_BYTES};
use ep_defs::{EventDef, TraceInfo};
use nt_write::limits::{FRAMED_EVENTS, STACK_BYTES};
use nt_write::{EventOut, TraceWriter};
use std::alloc::Global;
use std::mem;

/// Where a stream stands.
#[derive(Drop)]
pub enum Stage {
    /// It takes events, unless there was no memory amid a write.
    Open(TraceWriter<Outlet>),
    /// It takes no more. What is left of it waits to be pulled, and all of it was written or it was cut.
    Over { outlet: Outlet, is_whole: bool },
}

/// The writer of one stream, with the definitions that it knows and the counts of its threads.
#[derive(Drop)]
pub struct Recorder {
    stage: Stage,
    definitions: Catalog,
    threads: Threads,
    // How many events with frames there are since the last point.
    framed: u32,
}

impl Recorder {
    ghost use Rattle.tp_c.specs.Recording.{IsRecording, IsCut, TakesEvent, CutsEvent, outgoing_of, definitions_of, threads_of, call_refused, define_refused, head_refused, event_refused, is_over, is_cut};

    /// The stream's start.
    pub fn begin(alloc: Global, info: &TraceInfo) -> Result<Recorder, Refusal>
        ensures ok { IfOk result (λ recorder. IsRecording info.now [] [] recorder) }
        ensures definitions { IfOk result (λ recorder. definitions_of recorder ≡ []) }
        ensures memory { (refusal : Refusal) → result ≡ Err refusal → refusal ≡ OutOfMemory }
    {
        let sink = Outlet::new(alloc);
        match TraceWriter::begin(alloc, sink, info) {
            Ok(writer) => Ok(started(alloc, writer)),
            Err(_) => Err(Refusal::OutOfMemory),
        }
    }

    /// Gives a definition its number: that of the same definition, where one is there, else the next, from 1 on. Its
    /// texts are in units of UTF-16, and the names of its fields stand one after another.
    pub fn define(
        &mut self,
        alloc: Global,
        definition: &Definition,
        provider: &[u16],
        name: &[u16],
        fields: &[Field],
        names: &[u16],
    ) -> Result<u32, Refusal>
        ensures refused { (refusal : Refusal) → result ≡ Err refusal → (refusal ≡ OutOfMemory)
            ⊎ (define_refused self.old definition.now provider.now name.now fields.now names.now ≡ Some refusal) }
        ensures accepted { OnOk result (define_refused self.old definition.now provider.now name.now fields.now names.now ≡ None) }
        ensures number { IfOk result (λ number. number
            ≡ id_in is_same_event (definition_of definition.now provider.now name.now fields.now names.now) (definitions_of self.new)) }
        ensures defined { OnOk result (definitions_of self.new
            ≡ with_member is_same_event (definitions_of self.old) (definition_of definition.now provider.now name.now fields.now names.now)) }
        ensures goes_on { (info : TraceInfo) (entries : List Entry) (pulled : List ℕ)
            → IsRecording info entries pulled self.old
            → OnOk result (IsRecording info entries pulled self.new) }
        ensures same { OnErr result (self.new ≡ self.old) }
    {
        if let Some(refusal) = self.refuses() {
            return Err(refusal);
        }
        let def = definition.with_texts(alloc, provider, name, fields, names)?;
        self.definitions.add(def)
    }

    /// Writes one event, with the next number of its thread.
    pub fn event(
        &mut self,
        alloc: Global,
        head: &EventHead,
        frames: &[u8],
        payload: &[u8],
    ) -> Result<(), Refusal>
        ensures refused { (refusal : Refusal)
            → event_refused self.old head.now frames.now payload.now ≡ Some refusal
            → (result ≡ Err refusal) × (self.new ≡ self.old) }
        ensures memory { (refusal : Refusal)
            → event_refused self.old head.now frames.now payload.now ≡ None
            → result ≡ Err refusal → (refusal ≡ OutOfMemory) ⊎ (refusal ≡ Cut) }
        ensures ok { TakesEvent self.old head.now frames.now payload.now self.new result }
        ensures cut { CutsEvent self.old head.now frames.now payload.now self.new result }
        ensures same { result ≡ Err OutOfMemory → self.new ≡ self.old }
        ensures definitions { definitions_of self.new ≡ definitions_of self.old }
    {
        if !self.takes_head(head.event, frames, payload) {
            return Err(self.head_refusal(head.event, frames, payload));
        }
        self.take_event(alloc, head, frames, payload)
    }

    /// Writes how far each thread has come, and forgets the stacks.
    pub fn point(&mut self, alloc: Global, stamp: u64) -> Result<(), Refusal>
        ensures refused { (refusal : Refusal) → call_refused self.old ≡ Some refusal
            → (result ≡ Err refusal) × (self.new ≡ self.old) }
        ensures memory { (refusal : Refusal) → call_refused self.old ≡ None
            → result ≡ Err refusal → (refusal ≡ OutOfMemory) ⊎ (refusal ≡ Cut) }
        ensures ok { (info : TraceInfo) (entries : List Entry) (pulled : List ℕ)
            → IsRecording info entries pulled self.old
            → OnOk result (IsRecording info (entries ++ Point (point_of stamp (threads_of self.old)) ∷ []) pulled self.new) }
        ensures cut { (info : TraceInfo) (entries : List Entry) (pulled : List ℕ)
            → IsRecording info entries pulled self.old → result ≡ Err Cut
            → IsCut info (entries ++ Point (point_of stamp (threads_of self.old)) ∷ []) pulled self.new }
        ensures same { result ≡ Err OutOfMemory → self.new ≡ self.old }
        ensures definitions { definitions_of self.new ≡ definitions_of self.old }
    {
        if let Some(refusal) = self.refuses() {
            return Err(refusal);
        }
        let roll = self.threads.roll(alloc)?;
        match &mut self.stage {
            Stage::Open(writer) => match writer.point(alloc, stamp, &roll) {
                Ok(()) => {
                    self.framed = 0;
                    Ok(())
                }
                Err(_) => Err(Refusal::Cut),
            },
            Stage::Over { .. } => unreachable!(),
        }
    }

    /// Writes the end of the stream, unless that was done.
    pub fn end(&mut self, alloc: Global)
        ensures over { is_over self.new ≡ true }
        ensures done { is_over self.old ≡ true → self.new ≡ self.old }
        ensures whole { (info : TraceInfo) (entries : List Entry) (pulled : List ℕ)
            → IsRecording info entries pulled self.old → is_cut self.new ≡ false
            → IsRecording info entries pulled self.new }
        ensures broken { (info : TraceInfo) (entries : List Entry) (pulled : List ℕ)
            → IsRecording info entries pulled self.old → is_cut self.new ≡ true
            → IsCut info entries pulled self.new }
        ensures cut { (info : TraceInfo) (entries : List Entry) (pulled : List ℕ)
            → IsCut info entries pulled self.old → IsCut info entries pulled self.new }
    {
        let empty = Stage::Over {
            outlet: Outlet::new(alloc),
            is_whole: false,
        };
        self.stage = ended(alloc, mem::replace(&mut self.stage, empty));
    }

    /// Moves the next bytes of the stream to the front of `out`, as many as there are and as fit, and answers their
    /// count.
    pub fn pull(&mut self, alloc: Global, out: &mut [u8]) -> usize
        ensures count { result ≡ min (length out.old) (length (outgoing_of self.old).left) }
        ensures front { take result out.new ≡ take result (outgoing_of self.old).left }
        ensures rest { drop result out.new ≡ drop result out.old }
        ensures after { outgoing_of self.new ≡ after_pull result (outgoing_of self.old) }
        ensures goes_on { (info : TraceInfo) (entries : List Entry) (pulled : List ℕ)
            → IsRecording info entries pulled self.old
            → IsRecording info entries (pulled ++ take result out.new) self.new }
        ensures begun { (info : TraceInfo) (entries : List Entry) (pulled : List ℕ)
            → IsRecording info entries pulled self.old → IsBegun info entries (outgoing_of self.old) }
        ensures cut { (info : TraceInfo) (entries : List Entry) (pulled : List ℕ)
            → IsCut info entries pulled self.old
            → IsCut info entries (pulled ++ take result out.new) self.new }
        ensures over { is_over self.new ≡ is_over self.old }
        ensures is_cut { is_cut self.new ≡ is_cut self.old }
        ensures others { (definitions_of self.new ≡ definitions_of self.old) × (threads_of self.new ≡ threads_of self.old) }
    {
        match &mut self.stage {
            Stage::Open(writer) => pull_from(alloc, writer, out),
            Stage::Over { outlet, .. } => outlet.pull(out),
        }
    }

    /// Whether the stream has its end and all of it was pulled.
    pub fn is_done(&self) -> bool
        ensures { IsTrue result ↔ ((is_over self.now ≡ true) × ((outgoing_of self.now).left ≡ [])) }
    {
        match &self.stage {
            Stage::Open(_) => false,
            Stage::Over { outlet, .. } => outlet.left() == 0,
        }
    }

    /// Whether there was no memory amid a write.
    pub fn is_cut(&self) -> bool
        ensures { result ≡ is_cut self.now }
    {
        match &self.stage {
            Stage::Open(writer) => writer.failed().is_some(),
            Stage::Over { is_whole, .. } => !*is_whole,
        }
    }

    // Why the stream takes nothing more.
    fn refuses(&self) -> Option<Refusal>
        ensures { result ≡ call_refused self.now }
    {
        match &self.stage {
            Stage::Open(writer) => match writer.failed() {
                Some(_) => Some(Refusal::Cut),
                None => None,
            },
            Stage::Over { .. } => Some(Refusal::Ended),
        }
    }

    // Whether an event is taken, if its thread can have one more. Nearly all are, so that why one is refused is asked
    // apart.
    #[inline(always)]
    fn takes_head(&self, event: u32, frames: &[u8], payload: &[u8]) -> bool
        ensures { result ≡ is_none (head_refused self.now event frames.now payload.now) }
    {
        self.refuses().is_none()
            && self.definitions.get(event).is_some()
            && payload.len() <= PAYLOAD_BYTES
            && (frames.is_empty() || (are_frames(frames) && has_stack_left(self.framed, frames)))
    }

    // Why an event is refused that no thread can write.
    #[inline(never)]
    fn head_refusal(&self, event: u32, frames: &[u8], payload: &[u8]) -> Refusal
        requires { IsSome (head_refused self.now event frames.now payload.now) }
        ensures { head_refused self.now event frames.now payload.now ≡ Some result }
    {
        if let Some(refusal) = self.refuses() {
            return refusal;
        }
        if self.definitions.get(event).is_none() {
            return Refusal::NoDefinition;
        }
        if !are_frames(frames) {
            return Refusal::BadFrames;
        }
        if payload.len() > PAYLOAD_BYTES {
            return Refusal::LongPayload;
        }
        Refusal::TooManyStacks
    }

    // Numbers an event of which only the thread may be refused, and writes it.
    fn take_event(
        &mut self,
        alloc: Global,
        head: &EventHead,
        frames: &[u8],
        payload: &[u8],
    ) -> Result<(), Refusal>
        requires { head_refused self.old head.now.event frames.now payload.now ≡ None }
        ensures refused { (refusal : Refusal)
            → thread_refused (threads_of self.old) head.now.thread ≡ Some refusal
            → (result ≡ Err refusal) × (self.new ≡ self.old) }
        ensures memory { (refusal : Refusal)
            → thread_refused (threads_of self.old) head.now.thread ≡ None
            → result ≡ Err refusal → (refusal ≡ OutOfMemory) ⊎ (refusal ≡ Cut) }
        ensures ok { TakesEvent self.old head.now frames.now payload.now self.new result }
        ensures cut { CutsEvent self.old head.now frames.now payload.now self.new result }
        ensures same { result ≡ Err OutOfMemory → self.new ≡ self.old }
        ensures definitions { definitions_of self.new ≡ definitions_of self.old }
    {
        let Some(def) = self.definitions.get(head.event) else {
            unreachable!()
        };
        let Stage::Open(writer) = &mut self.stage else {
            unreachable!()
        };
        let number = self.threads.count(head.thread)?;
        let out = EventOut {
            event: head.event,
            thread: head.thread,
            number,
            stamp: head.stamp,
            activity: head.activity,
            related: head.related,
            frames,
            payload,
        };
        match writer.sound_event(alloc, def, &out) {
            Ok(()) => {
                if !frames.is_empty() {
                    self.framed += 1;
                }
                Ok(())
            }
            Err(_) => Err(Refusal::Cut),
        }
    }
}

// A recorder whose writer has begun.
fn started(alloc: Global, writer: TraceWriter<Outlet>) -> Recorder
    ensures stage { result.stage ≡ Open writer }
    ensures definitions { result.definitions ≡ [] }
    ensures threads { result.threads ≡ [] }
    ensures framed { result.framed ≡ 0 }
{
    Recorder {
        stage: Stage::Open(writer),
        definitions: Catalog::new(alloc),
        threads: Threads::new(alloc),
        framed: 0,
    }
}

// Whether these are at most 100 frames, of 8 bytes each.
fn are_frames(frames: &[u8]) -> bool
    ensures { result ≡ said.are_frames frames.now }
{
    frames.len() <= STACK_BYTES && frames.len() % FRAME_BYTES == 0
}

// Whether the stacks since the last point can be numbered with one more.
fn has_stack_left(framed: u32, frames: &[u8]) -> bool
    ensures { result ≡ said.has_stack_left framed frames.now }
{
    frames.is_empty() || framed < FRAMED_EVENTS
}

// The stage once the stream has its end.
fn ended(alloc: Global, stage: Stage) -> Stage
    ensures over { is_over_stage result ≡ true }
    ensures done { is_over_stage stage ≡ true → result ≡ stage }
    ensures whole { (info : TraceInfo) (entries : List Entry) (definitions : List EventDef)
        → AreDistinct (definition_at definitions) → StandsFor info entries definitions stage
        → is_cut_stage result ≡ false → StandsFor info entries definitions result }
    ensures broken { (info : TraceInfo) (entries : List Entry) (definitions : List EventDef)
        → AreDistinct (definition_at definitions) → StandsFor info entries definitions stage
        → is_cut_stage result ≡ true → IsBegun info entries (bytes_of result) }
    ensures cut { is_cut_stage stage ≡ true
        → (bytes_of result ≡ bytes_of stage) × (is_cut_stage result ≡ true) }
    ensures pulled { (bytes_of result).pulled ≡ (bytes_of stage).pulled }
{
    match stage {
        Stage::Open(writer) => {
            let (outlet, result) = writer.end(alloc);
            Stage::Over {
                outlet,
                is_whole: result.is_ok(),
            }
        }
        over => over,
    }
}

// Pulls what the sink of a writer keeps.
fn pull_from(alloc: Global, writer: &mut TraceWriter<Outlet>, out: &mut [u8]) -> usize
    ensures count { result ≡ min (length out.old) (length (sink_of writer.old).left) }
    ensures front { take result out.new ≡ take result (sink_of writer.old).left }
    ensures rest { drop result out.new ≡ drop result out.old }
    ensures after { writer.new ≡ with_sink writer.old (after_pull result (sink_of writer.old)) }
    ensures goes_on { (info : TraceInfo) (entries : List Entry) (definitions : List EventDef)
        → IsOpen info entries definitions writer.old → IsOpen info entries definitions writer.new }
    ensures begun { (info : TraceInfo) (entries : List Entry) (definitions : List EventDef)
        → AreDistinct (definition_at definitions) → IsOpen info entries definitions writer.old
        → IsBegun info entries (sink_of writer.old) }
{
    let mut outlet = writer.replace_sink(Outlet::new(alloc));
    let count = outlet.pull(out);
    let _ = writer.replace_sink(outlet);
    count
}
