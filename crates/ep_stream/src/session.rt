//! A session: its stream, and what it has of the threads that it is open on.
ghost use Rattle.std.specs.Prelude.{◌≡◌, ◌≢◌, ℕ, ◌+◌, ◌<◌, ◌≤◌, ◌↔◌, List, [], ◌∷◌, Option, None, Some, Err, length, IsSome, IsTrue, IfOk, IfErr, OnOk, OnErr};
ghost use Rattle.std.specs.List.{list_all};
ghost use Rattle.std.specs.Option.{ForSome};
ghost use Rattle.ep_defs.specs.Definitions.{AreDistinct, definition_at};
ghost use Rattle.ep_defs.specs.Event.{is_valid_event};
ghost use Rattle.ep_defs.specs.Entry.{Point};
ghost use Rattle.ep_defs.specs.declared.event.EventDef.{EventDef as EventValue};
ghost use Rattle.ep_defs.specs.declared.limits.TheConstants.{SESSIONS as SLOTS};
ghost use Rattle.ep_slot.specs.Hand.{HandState};
ghost use Rattle.pt_io.specs.Faults.{HasRisen};
ghost use Rattle.pt_io.specs.Taken.{TookAll, TookPart as TookPartOf};
ghost use Rattle.nt_write.specs.declared.fault.Fault.TheVariants.{TooLong, WriteFault, OutOfMemory};
ghost use Rattle.nt_write.specs.Writer.{point_of};
ghost use Rattle.ep_stream.specs.Rows.{IsRow, CountsRefused, KeepsSet, KeepsSlots};
ghost use Rattle.ep_stream.specs.Steps.{TellsStep, CanOpen, CanClose, Opens, GivesBack, Stays};
ghost use Rattle.ep_rundown.specs.Rundown.{lacks_rundown, naming};
ghost use Rattle.ep_stream.specs.Rundown.{last_definitions};
ghost use Rattle.ep_stream.specs.Telling.{TellsNext, TellsLast, IsFaulty};
ghost use Rattle.ep_stream.specs.Named.{still_open, numbers_of};
ghost use Rattle.ep_stream.specs.Fates.{fate_after};

use crate::opened::Opened;
use crate::row_set::RowSet;
use crate::rundown::describe_used;
use crate::write::write_chain;
use ep_defs::limits::{EVENTS, SESSION_THREADS, SESSIONS};
use ep_defs::{Config, EventDef, Items, MarkList, TraceInfo};
use ep_slot::Batch;
use nt_write::{Fault, TraceWriter};
use pt_io::Sink;
use std::alloc::{AllocError, Global};

/// Where a session was accepted.
#[derive(Clone, Copy, Debug, PartialEq, Eq)]
pub struct Seat {
    /// Its slot on each row, from 0.
    pub slot: u32,
    pub id: u64,
    /// The number of the connection that asked for it.
    pub conn: u32,
}

/// Why a session ended.
#[derive(Clone, Copy, Debug, PartialEq, Eq)]
pub enum Fate {
    /// A connection asked for it.
    Requested { conn: u32 },
    /// The program's threads ended.
    ProgramEnd,
    /// Its sink failed.
    LinkFault,
    /// More events with frames than stack ids stand between two points.
    TooLong,
    OutOfMemory,
}

/// What is left of a session that has ended.
#[derive(Drop)]
pub struct SessionEnd<S> {
    pub id: u64,
    pub slot: u32,
    pub conn: u32,
    pub config: Config,
    /// Of each thread on which it was opened, ascending by thread.
    pub marks: MarkList,
    pub fate: Fate,
    /// It has taken the whole stream, unless the session failed.
    pub sink: S,
}

/// A session that was accepted.
#[derive(Drop)]
pub struct Session<S: Sink> {
    place: Place,
    config: Config,
    writer: TraceWriter<S>,
    opened: Opened,
    // What was taken and not given back.
    batch: Option<Batch>,
}

// A seat whose slot is one of a row's.
#[derive(Debug, Drop)]
struct Place {
    seat: Seat,
    ghost slot: { seat.slot < SLOTS },
}

impl<S: Sink> Session<S> {
    ghost use Rattle.ep_stream.specs.Sweep.{SweptFrom, SweptRowFrom, MayFail, point_after, named_behind};
    ghost use Rattle.ep_stream.specs.Session.{writer_of, sink_of, fault_of, hand_on, opened_count, rest_of, new_rest, WasOpened, AreRowsOf, SameHands, Started, TookStart, Attached, StolenFrom, DetachedFrom, Writes, last_entries, Ended};

    /// Begins the stream of a session: writes the reply to who asked for it, if there is one, and the stream's start. It
    /// takes the memory for so many rows first. The sink comes back where that fails.
    pub fn start(
        alloc: Global,
        sink: S,
        reply: &[u8],
        seat: Seat,
        config: Config,
        info: &TraceInfo,
        rows: u32,
    ) -> Result<Session<S>, (S, Fault)>
        requires { seat.slot < SESSIONS }
        ensures started { IfOk result (λ session. Started S.tells_taken S.taken reply.now info.now sink session) }
        ensures sound { IfOk result (λ session. fault_of session ≡ None) }
        ensures part { IfErr result (λ failed. TookStart S.tells_taken S.taken reply.now info.now sink failed.0) }
        ensures write_fault { IfErr result (λ failed. failed.1 ≡ WriteFault → HasRisen (S.write_faults sink) (S.write_faults failed.0)) }
        ensures not_long { IfErr result (λ failed. failed.1 ≢ TooLong) }
        ensures memory { IfErr result (λ failed. failed.1 ≡ OutOfMemory → S.write_faults failed.0 ≡ S.write_faults sink) }
        ensures wrote { IfOk result (λ session. S.write_faults (sink_of session) ≡ S.write_faults sink) }
        ensures later { IfErr result (λ failed. S.write_faults sink ≤ S.write_faults failed.0) }
        ensures told { IfOk result (λ session. S.tells_taken (sink_of session) ≡ S.tells_taken sink) }
        ensures told_back { IfErr result (λ failed. S.tells_taken failed.0 ≡ S.tells_taken sink) }
        ensures other_side { IfOk result (λ session. S.read_side (sink_of session) ≡ S.read_side sink) }
        ensures hands { IfOk result (λ session. (row : ℕ) → hand_on session row ≡ None) }
        ensures rest { IfOk result (λ session. rest_of session ≡ new_rest seat config) }
        ensures count { IfOk result (λ session. opened_count session ≡ 0) }
    {
        let opened = match Opened::new(alloc, rows) {
            Ok(opened) => opened,
            Err(_) => return Err((sink, Fault::OutOfMemory)),
        };
        let mut sink = sink;
        if let Err(fault) = write_reply(&mut sink, reply) {
            return Err((sink, fault));
        }
        let writer = TraceWriter::begin(alloc, sink, info)?;
        Ok(Session {
            place: Place { seat },
            config,
            writer,
            opened,
            batch: None,
        })
    }

    /// Opens the session on a row where it is not open, for a thread on which it was never opened. Where it is out of
    /// memory it is as before.
    pub fn attach<R: RowSet>(
        &mut self,
        alloc: Global,
        rows: &mut R,
        row: u32,
    ) -> Result<(), AllocError>
        requires row { IsRow (R.count rows.old) row }
        requires off { hand_on self.old row ≡ None }
        requires few { opened_count self.old < SESSION_THREADS }
        requires new { (hand : HandState) → R.tests_hand rows.old row hand → WasOpened self.old hand.thread → ⊥ }
        requires can_open { ForSome (R.rows rows.old) (CanOpen row) }
        requires can_attach { R.can_attach rows.old (rest_of self.old).seat.slot (rest_of self.old).config }
        requires rows { AreRowsOf R.expected R.configured R.out rows.old self.old }
        ensures attached { OnOk result (Attached (R.tests_hand rows.old row) row self.old self.new) }
        ensures told { OnOk result (TellsStep (Opens (R.definitions rows.old) row (rest_of self.old).seat.slot (rest_of self.old).seat.id (rest_of self.old).config) (R.rows rows.old) (R.rows rows.new)) }
        ensures count { OnOk result (opened_count self.new ≡ opened_count self.old + 1) }
        ensures hands { OnErr result (SameHands self.old self.new) }
        ensures rest { OnErr result (rest_of self.new ≡ rest_of self.old) }
        ensures none_told { OnErr result (TellsStep Stays (R.rows rows.old) (R.rows rows.new)) }
        ensures none_count { OnErr result (opened_count self.new ≡ opened_count self.old) }
        ensures writer { writer_of self.new ≡ writer_of self.old }
        ensures rows { AreRowsOf R.expected R.configured R.out rows.new self.new }
        ensures refused { R.refused rows.new ≡ R.refused rows.old }
        ensures set { KeepsSet R.count R.definitions R.can_attach R.tests_record R.tests_hand R.tests_marks rows.old rows.new }
        ensures slots { KeepsSlots R.expected R.configured R.out (rest_of self.old).seat.slot rows.old rows.new }
    {
        self.opened.reserve(row)?;
        let hand = rows.attach(
            alloc,
            row,
            self.place.seat.slot,
            self.place.seat.id,
            &self.config,
        )?;
        self.opened.open_on(row, hand);
        Ok(())
    }

    /// Takes all that a row has pending for the session, and writes it into the stream. It stays in hand until `give`,
    /// also after a fault. Answers how many records there were.
    pub fn steal<R: RowSet>(
        &mut self,
        alloc: Global,
        rows: &mut R,
        row: u32,
        events: &[EventDef],
    ) -> Result<u32, Fault>
        requires row { IsSome (hand_on self.old row) }
        requires empty { (rest_of self.old).in_hand ≡ 0 }
        requires rows { AreRowsOf R.expected R.configured R.out rows.old self.old }
        requires events { events.now ≡ R.definitions rows.old }
        requires few { length events.now ≤ EVENTS }
        requires valid { IsTrue (list_all is_valid_event events.now) }
        requires distinct { AreDistinct (definition_at events.now) }
        ensures stolen { StolenFrom S.tells_taken S.taken (R.tests_record rows.old) (R.rows rows.old) (R.rows rows.new)
            events.now row self.old self.new result }
        ensures faulty { IsFaulty S.write_faults (writer_of self.old) (writer_of self.new) result }
        ensures other_side { S.read_side (sink_of self.new) ≡ S.read_side (sink_of self.old) }
        ensures count { opened_count self.new ≡ opened_count self.old }
        ensures rows { AreRowsOf R.expected R.configured R.out rows.new self.new }
        ensures refused { R.refused rows.new ≡ R.refused rows.old }
        ensures set { KeepsSet R.count R.definitions R.can_attach R.tests_record R.tests_hand R.tests_marks rows.old rows.new }
        ensures slots { KeepsSlots R.expected R.configured R.out (rest_of self.old).seat.slot rows.old rows.new }
    {
        let mut hand = self.opened.lift(row);
        let before = hand.taken();
        let batch = rows.steal(row, self.place.seat.slot, &mut hand);
        let count = hand.taken() - before;
        let thread = hand.thread();
        self.opened.put(row, hand);
        self.opened.number(thread, batch.last, true);
        let written = write_chain(
            alloc,
            &mut self.writer,
            events,
            self.config.stackwalk,
            &batch.chain,
        );
        self.batch = Some(batch);
        written?;
        Ok(count)
    }

    /// Gives back the chunks in hand, if there are some. It takes no memory.
    pub fn give<R: RowSet>(&mut self, rows: &mut R)
        requires { AreRowsOf R.expected R.configured R.out rows.old self.old }
        ensures rest { rest_of self.new ≡ record (rest_of self.old) { in_hand = 0 } }
        ensures hands { SameHands self.old self.new }
        ensures writer { writer_of self.new ≡ writer_of self.old }
        ensures count { opened_count self.new ≡ opened_count self.old }
        ensures none { (rest_of self.old).in_hand ≡ 0 → rows.new ≡ rows.old }
        ensures told { 0 < (rest_of self.old).in_hand → TellsStep (GivesBack (rest_of self.old).seat.slot (rest_of self.old).in_hand) (R.rows rows.old) (R.rows rows.new) }
        ensures rows { AreRowsOf R.expected R.configured R.out rows.new self.new }
        ensures refused { R.refused rows.new ≡ R.refused rows.old }
        ensures set { KeepsSet R.count R.definitions R.can_attach R.tests_record R.tests_hand R.tests_marks rows.old rows.new }
        ensures slots { KeepsSlots R.expected R.configured R.out (rest_of self.old).seat.slot rows.old rows.new }
    {
        if let Some(batch) = self.batch.take() {
            if batch.chain.count() > 0 {
                rows.give(self.place.seat.slot, batch);
            }
        }
    }

    /// Whether it has chunks in hand.
    pub fn in_hand(&self) -> bool
        ensures { IsTrue result ↔ (0 < (rest_of self.now).in_hand) }
    {
        match &self.batch {
            Some(batch) => batch.chain.count() > 0,
            None => false,
        }
    }

    /// Writes how far each thread had come on which the session is open, or was closed with no point since.
    pub fn point(&mut self, alloc: Global, stamp: u64) -> Result<(), Fault>
        ensures writes { (events : List EventValue) → Writes S.tells_taken S.taken events (Point (point_of stamp (numbers_of (rest_of self.old).named)) ∷ []) self.old self.new result }
        ensures others { rest_of self.new ≡ record (rest_of self.old) { named = (rest_of self.new).named } }
        ensures named { OnOk result (rest_of self.new ≡ record (rest_of self.old) { named = still_open (rest_of self.old).named }) }
        ensures rest { OnErr result (rest_of self.new ≡ rest_of self.old) }
        ensures hands { SameHands self.old self.new }
        ensures faulty { IsFaulty S.write_faults (writer_of self.old) (writer_of self.new) result }
        ensures other_side { S.read_side (sink_of self.new) ≡ S.read_side (sink_of self.old) }
        ensures count { opened_count self.new ≡ opened_count self.old }
    {
        self.opened.count_off();
        self.writer.point(alloc, stamp, self.opened.numbers())?;
        self.opened.forget_closed();
        Ok(())
    }

    /// Takes all that is pending of each row on which the session is open, in the order of rows, writes it, and gives it
    /// back before it goes on. Where there was a record it ends with a point. After a fault it gives back what it took
    /// and takes nothing more. Answers how many records there were.
    pub fn sweep<R: RowSet>(
        &mut self,
        alloc: Global,
        rows: &mut R,
        stamp: u64,
        events: &[EventDef],
    ) -> Result<u64, Fault>
        requires empty { (rest_of self.old).in_hand ≡ 0 }
        requires rows { AreRowsOf R.expected R.configured R.out rows.old self.old }
        requires events { events.now ≡ R.definitions rows.old }
        requires few { length events.now ≤ EVENTS }
        requires valid { IsTrue (list_all is_valid_event events.now) }
        requires distinct { AreDistinct (definition_at events.now) }
        ensures swept { SweptFrom S.tells_taken S.taken (R.tests_record rows.old) (R.rows rows.old) (R.rows rows.new)
            events.now stamp (R.count rows.old) self.old self.new result }
        ensures faulty { IsFaulty S.write_faults (writer_of self.old) (writer_of self.new) result }
        ensures other_side { S.read_side (sink_of self.new) ≡ S.read_side (sink_of self.old) }
        ensures count { opened_count self.new ≡ opened_count self.old }
        ensures rows { AreRowsOf R.expected R.configured R.out rows.new self.new }
        ensures refused { R.refused rows.new ≡ R.refused rows.old }
        ensures set { KeepsSet R.count R.definitions R.can_attach R.tests_record R.tests_hand R.tests_marks rows.old rows.new }
        ensures slots { KeepsSlots R.expected R.configured R.out (rest_of self.old).seat.slot rows.old rows.new }
    {
        let mut count = 0;
        for place in 0..rows.threads() {
            let taken = self.sweep_row(alloc, rows, place + 1, events)?;
            count += u64::from(taken);
        }
        self.end_sweep(alloc, stamp, count)?;
        Ok(count)
    }

    // Takes all that a row has pending, if the session is open there, writes it, and gives it back, also after a fault.
    fn sweep_row<R: RowSet>(
        &mut self,
        alloc: Global,
        rows: &mut R,
        row: u32,
        events: &[EventDef],
    ) -> Result<u32, Fault>
        requires row { 0 < row }
        requires empty { (rest_of self.old).in_hand ≡ 0 }
        requires rows { AreRowsOf R.expected R.configured R.out rows.old self.old }
        requires events { events.now ≡ R.definitions rows.old }
        requires few { length events.now ≤ EVENTS }
        requires valid { IsTrue (list_all is_valid_event events.now) }
        requires distinct { AreDistinct (definition_at events.now) }
        ensures swept { SweptRowFrom S.tells_taken S.taken (R.tests_record rows.old) (R.rows rows.old) (R.rows rows.new)
            events.now row self.old self.new result }
        ensures faulty { MayFail S.write_faults (writer_of self.old) (writer_of self.new) result }
        ensures other_side { S.read_side (sink_of self.new) ≡ S.read_side (sink_of self.old) }
        ensures count { opened_count self.new ≡ opened_count self.old }
        ensures rows { AreRowsOf R.expected R.configured R.out rows.new self.new }
        ensures refused { R.refused rows.new ≡ R.refused rows.old }
        ensures set { KeepsSet R.count R.definitions R.can_attach R.tests_record R.tests_hand R.tests_marks rows.old rows.new }
        ensures slots { KeepsSlots R.expected R.configured R.out (rest_of self.old).seat.slot rows.old rows.new }
    {
        if !self.opened.is_open(row) {
            return Ok(0);
        }
        let taken = self.steal(alloc, rows, row, events);
        self.give(rows);
        taken
    }

    // Writes a point where a sweep took records. A session that has failed answers its fault.
    fn end_sweep(&mut self, alloc: Global, stamp: u64, taken: u64) -> Result<(), Fault>
        ensures writes { (events : List EventValue) → Writes S.tells_taken S.taken events (point_after taken stamp (rest_of self.old).named) self.old self.new result }
        ensures others { rest_of self.new ≡ record (rest_of self.old) { named = (rest_of self.new).named } }
        ensures named { OnOk result ((rest_of self.new).named ≡ named_behind taken (rest_of self.old).named) }
        ensures unnamed { OnErr result ((rest_of self.new).named ≡ (rest_of self.old).named) }
        ensures hands { SameHands self.old self.new }
        ensures faulty { IsFaulty S.write_faults (writer_of self.old) (writer_of self.new) result }
        ensures other_side { S.read_side (sink_of self.new) ≡ S.read_side (sink_of self.old) }
        ensures count { opened_count self.new ≡ opened_count self.old }
    {
        if let Some(fault) = self.writer.failed() {
            return Err(fault);
        }
        if taken == 0 {
            return Ok(());
        }
        self.point(alloc, stamp)
    }

    /// Closes the session on a row, and writes what it still had pending. That stays in hand until `give`, and what the
    /// session had of the row's thread is kept for the end, both also after a fault.
    pub fn detach<R: RowSet>(
        &mut self,
        alloc: Global,
        rows: &mut R,
        row: u32,
        events: &[EventDef],
    ) -> Result<(), Fault>
        requires row { IsSome (hand_on self.old row) }
        requires empty { (rest_of self.old).in_hand ≡ 0 }
        requires can_close { ForSome (R.rows rows.old) (CanClose row) }
        requires rows { AreRowsOf R.expected R.configured R.out rows.old self.old }
        requires events { events.now ≡ R.definitions rows.old }
        requires few { length events.now ≤ EVENTS }
        requires valid { IsTrue (list_all is_valid_event events.now) }
        requires distinct { AreDistinct (definition_at events.now) }
        ensures detached { DetachedFrom S.tells_taken S.taken (R.tests_record rows.old) (R.tests_marks rows.old) (R.rows rows.old) (R.rows rows.new)
            events.now row self.old self.new result }
        ensures faulty { IsFaulty S.write_faults (writer_of self.old) (writer_of self.new) result }
        ensures other_side { S.read_side (sink_of self.new) ≡ S.read_side (sink_of self.old) }
        ensures count { opened_count self.new ≡ opened_count self.old }
        ensures rows { AreRowsOf R.expected R.configured R.out rows.new self.new }
        ensures refused { CountsRefused (R.refused rows.old) (rest_of self.old).marks → CountsRefused (R.refused rows.new) (rest_of self.new).marks }
        ensures set { KeepsSet R.count R.definitions R.can_attach R.tests_record R.tests_hand R.tests_marks rows.old rows.new }
        ensures slots { KeepsSlots R.expected R.configured R.out (rest_of self.old).seat.slot rows.old rows.new }
    {
        let hand = self.opened.lift(row);
        let thread = hand.thread();
        let (batch, marks) = rows.detach(row, self.place.seat.slot, hand);
        self.opened.mark(row, marks);
        self.opened.number(thread, batch.last, false);
        let written = write_chain(
            alloc,
            &mut self.writer,
            events,
            self.config.stackwalk,
            &batch.chain,
        );
        self.batch = Some(batch);
        written
    }

    /// Ends the session, which is open nowhere and has nothing in hand: writes the last point and the end of the stream,
    /// unless the session has failed. Its fate is then that of the fault, and else the one that is handed in.
    ///
    /// Where the session was asked for a rundown, an event of thread 0 with this stamp describes each definition that its
    /// events named, before the last point, which then names thread 0 too. `events` are the definitions of its steals.
    pub fn finish(self, alloc: Global, stamp: u64, fate: Fate, events: &[EventDef]) -> SessionEnd<S>
        requires closed { (row : ℕ) → hand_on self row ≡ None }
        requires empty { (rest_of self).in_hand ≡ 0 }
        requires few { length events.now ≤ EVENTS }
        requires valid { IsTrue (list_all is_valid_event events.now) }
        requires distinct { AreDistinct (definition_at events.now) }
        requires lacks { IsTrue (lacks_rundown events.now) }
        ensures id { result.id ≡ (rest_of self).seat.id }
        ensures slot { result.slot ≡ (rest_of self).seat.slot }
        ensures conn { result.conn ≡ (rest_of self).seat.conn }
        ensures config { result.config ≡ (rest_of self).config }
        ensures marks { result.marks ≡ (rest_of self).marks }
        ensures ended { Ended S.tells_taken S.taken S.write_faults events.now stamp fate self result.fate result.sink }
        ensures later { S.write_faults (sink_of self) ≤ S.write_faults result.sink }
        ensures other_side { S.read_side result.sink ≡ S.read_side (sink_of self) }
    {
        let mut session = self;
        let _ = session.write_last(alloc, stamp, events);
        let Session {
            place,
            config,
            writer,
            opened,
            batch: _,
        } = session;
        let (sink, answer) = writer.end(alloc);
        SessionEnd {
            id: place.seat.id,
            slot: place.seat.slot,
            conn: place.seat.conn,
            config,
            marks: Items::new(opened.into_marks()),
            fate: fate_of(answer, fate),
            sink,
        }
    }

    // Writes the last entries of the stream: the section, where the session was asked for a rundown, and the last point.
    fn write_last(&mut self, alloc: Global, stamp: u64, events: &[EventDef]) -> Result<(), Fault>
        requires few { length events.now ≤ EVENTS }
        requires valid { IsTrue (list_all is_valid_event events.now) }
        requires distinct { AreDistinct (definition_at events.now) }
        requires lacks { IsTrue (lacks_rundown events.now) }
        ensures writes { TellsLast S.tells_taken S.taken (definition_at events.now) (last_definitions (rest_of self.old).config.rundown events.now)
            (λ told. last_entries stamp told (rest_of self.old)) (writer_of self.old) (writer_of self.new) result }
        ensures others { rest_of self.new ≡ record (rest_of self.old) { named = (rest_of self.new).named } }
        ensures faulty { IsFaulty S.write_faults (writer_of self.old) (writer_of self.new) result }
        ensures other_side { S.read_side (sink_of self.new) ≡ S.read_side (sink_of self.old) }
    {
        if !self.config.rundown {
            return self.point(alloc, stamp);
        }
        let described = describe_used(alloc, &mut self.writer, events, stamp)?;
        self.point_with_rundown(alloc, stamp, described)
    }

    // Writes how far each thread had come, and thread 0, which has so many descriptions, first.
    fn point_with_rundown(&mut self, alloc: Global, stamp: u64, described: u32) -> Result<(), Fault>
        requires sound { fault_of self.old ≡ None }
        ensures writes { (defs : ℕ → Option EventValue) → TellsNext S.tells_taken S.taken defs
            (Point (naming described (point_of stamp (numbers_of (rest_of self.old).named))) ∷ []) (writer_of self.old) (writer_of self.new) result }
        ensures rest { rest_of self.new ≡ rest_of self.old }
        ensures faulty { IsFaulty S.write_faults (writer_of self.old) (writer_of self.new) result }
        ensures other_side { S.read_side (sink_of self.new) ≡ S.read_side (sink_of self.old) }
    {
        self.opened.count_off();
        let Ok(()) = self.opened.count_first(described) else {
            self.writer.give_up();
            return Err(Fault::OutOfMemory);
        };
        self.writer.point(alloc, stamp, self.opened.numbers())
    }
}

// Writes the reply to who asked for the session, if there is one.
fn write_reply<S: Sink>(sink: &mut S, reply: &[u8]) -> Result<(), Fault>
    ensures took { OnOk result (TookAll S.tells_taken S.taken sink.old sink.new reply.now) }
    ensures part { OnErr result (TookPartOf S.tells_taken S.taken sink.old sink.new reply.now) }
    ensures wrote { OnOk result (S.write_faults sink.new ≡ S.write_faults sink.old) }
    ensures write_fault { OnErr result (HasRisen (S.write_faults sink.old) (S.write_faults sink.new)) }
    ensures fault { IfErr result (λ fault. fault ≡ WriteFault) }
    ensures later { S.write_faults sink.old ≤ S.write_faults sink.new }
    ensures told { S.tells_taken sink.new ≡ S.tells_taken sink.old }
    ensures other_side { S.read_side sink.new ≡ S.read_side sink.old }
{
    if !reply.is_empty() {
        sink.write(reply)?;
    }
    Ok(())
}

// The fate of a session whose stream was ended with this answer.
fn fate_of(answer: Result<(), Fault>, fate: Fate) -> Fate
    ensures { result ≡ fate_after answer fate }
{
    match answer {
        Ok(()) => fate,
        Err(Fault::WriteFault) => Fate::LinkFault,
        Err(Fault::TooLong) => Fate::TooLong,
        Err(Fault::OutOfMemory) => Fate::OutOfMemory,
    }
}
