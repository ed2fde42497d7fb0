//! A session and the rows that it is open on.
ghost use Rattle.std.specs.Prelude.{◌≡◌, ℕ, ◌<◌, false, None, [], ◌∷◌, IfOk, IsSome};
ghost use Rattle.std.specs.Option.{is_some};
ghost use Rattle.nt_write.specs.Vectors.{event_e};
ghost use Rattle.ep_stream.specs.Session.{AreRowsOf, hand_on, opened_count, rest_of};

use super::rows::{ListedRows, ROWS, SLOT};
use ep_defs::limits::SESSION_THREADS;
use ep_defs::{Config, EventDef, Items, Units, Write, standard_info};
use ep_stream::{Fate, RowSet, Seat, Session, SessionEnd};
use nt_write::Fault;
use pt_io::MemSink;
use std::alloc::{AllocError, AllocGlobal, Global};
use std::process::Abort;

/// A session of connection 7 over listed rows. It gets each event.
#[derive(Drop)]
pub(super) struct Scene {
    session: Session<MemSink>,
    rows: ListedRows,
    events: Vec<EventDef>,
    // How often it was opened.
    opens: usize,
    // Whether it was closed on a row.
    closed: bool,
    ghost slot: { (rest_of session).seat.slot ≡ 3 },
    ghost event: { events.items ≡ event_e ∷ [] },
    ghost agree: { AreRowsOf ⟦<ListedRows as RowSet>⟧.expected ⟦<ListedRows as RowSet>⟧.configured ⟦<ListedRows as RowSet>⟧.out rows session },
    ghost counted: { opens ≡ opened_count session },
    ghost unmarked: { closed ≡ false → (rest_of session).marks ≡ [] },
}

impl Scene {
    /// A session that is open nowhere, over rows that refuse so many times to open one. Its sink fails at this write, the
    /// first being 1. It was asked for a rundown or not.
    pub(super) fn new(
        alloc: Global,
        fails: u64,
        refusals: u32,
        rundown: bool,
    ) -> Result<Scene, AllocError> {
        let rows = ListedRows::new(alloc, 4, refusals)?;
        let events = program(alloc)?;
        let sink = MemSink::new(Vec::from_array(alloc, [fails])?);
        match begin(alloc, sink, b"", 4, rundown, ROWS) {
            Ok(session) => Ok(Scene {
                session,
                rows,
                events,
                opens: 0,
                closed: false,
            }),
            Err(_) => Err(AllocError),
        }
    }

    /// How many chunks are free.
    pub(super) fn free(&self) -> u32 {
        self.rows.free()
    }

    fn is_open(&self, row: u32) -> bool
        ensures { result ≡ is_some (hand_on self.now.session row) }
    {
        self.rows.is_open(row)
    }

    // Ends the test where it is open on the row.
    fn must_be_off(&self, rt: &impl Abort, row: u32)
        ensures { hand_on self.now.session row ≡ None }
    {
        assert!(rt; !self.is_open(row));
    }

    // Ends the test where it has chunks in hand.
    fn must_be_empty(&self, rt: &impl Abort)
        ensures { (rest_of self.now.session).in_hand ≡ 0 }
    {
        assert!(rt; !self.session.in_hand());
    }

    // Ends the test where nothing can be taken of the row.
    fn must_be_on(&self, rt: &impl Abort, row: u32)
        ensures on { IsSome (hand_on self.now.session row) }
        ensures empty { (rest_of self.now.session).in_hand ≡ 0 }
    {
        assert!(rt; self.is_open(row));
        self.must_be_empty(rt);
    }

    // Ends the test where it was closed on a row, or opened too often.
    fn must_be_young(&self, rt: &impl Abort)
        ensures few { opened_count self.now.session < SESSION_THREADS }
        ensures unmarked { (rest_of self.now.session).marks ≡ [] }
    {
        assert!(rt; self.opens < SESSION_THREADS && !self.closed);
    }

    /// Opens the session on a row. All rows are opened before the first is closed.
    pub(super) fn attach(
        &mut self,
        rt: &(impl Abort + AllocGlobal),
        row: u32,
    ) -> Result<(), AllocError> {
        assert!(rt; row > 0 && row <= ROWS);
        self.must_be_off(rt, row);
        self.must_be_young(rt);
        self.session.attach(rt.alloc(), &mut self.rows, row)?;
        self.opens += 1;
        Ok(())
    }

    /// A thread writes the event, whose record is kept.
    pub(super) fn write(&mut self, rt: &(impl Abort + AllocGlobal), row: u32, stamp: u64) {
        assert!(rt; row > 0 && row <= ROWS);
        let kept = self.rows.write(row, stamp, &write(rt.alloc()));
        assert!(rt; kept);
    }

    pub(super) fn steal(
        &mut self,
        rt: &(impl Abort + AllocGlobal),
        row: u32,
    ) -> Result<u64, Fault> {
        self.must_be_on(rt, row);
        let count = self
            .session
            .steal(rt.alloc(), &mut self.rows, row, self.events.as_slice())?;
        Ok(u64::from(count))
    }

    pub(super) fn give(&mut self) {
        self.session.give(&mut self.rows);
    }

    pub(super) fn sweep(
        &mut self,
        rt: &(impl Abort + AllocGlobal),
        stamp: u64,
    ) -> Result<u64, Fault> {
        self.must_be_empty(rt);
        self.session
            .sweep(rt.alloc(), &mut self.rows, stamp, self.events.as_slice())
    }

    pub(super) fn detach(
        &mut self,
        rt: &(impl Abort + AllocGlobal),
        row: u32,
    ) -> Result<(), Fault> {
        self.must_be_on(rt, row);
        self.closed = true;
        self.session
            .detach(rt.alloc(), &mut self.rows, row, self.events.as_slice())
    }

    // Ends the test where it is open on a row or has chunks in hand.
    fn must_be_closed(&self, rt: &impl Abort)
        ensures closed { (row : ℕ) → hand_on self.now.session row ≡ None }
        ensures empty { (rest_of self.now.session).in_hand ≡ 0 }
    {
        self.must_be_off(rt, 1);
        self.must_be_off(rt, 2);
        self.must_be_empty(rt);
    }

    /// Ends the session, which is open nowhere.
    pub(super) fn finish(self, rt: &(impl Abort + AllocGlobal), stamp: u64) -> SessionEnd<MemSink> {
        self.must_be_closed(rt);
        let Scene {
            session,
            events,
            ..
        } = self;
        session.finish(rt.alloc(), stamp, Fate::ProgramEnd, events.as_slice())
    }
}

/// Begins the stream of a session of connection 7 in the slot, without rules and stacks, behind the reply. There are so
/// many rows.
pub(super) fn begin(
    alloc: Global,
    sink: MemSink,
    reply: &[u8],
    chunks: u32,
    rundown: bool,
    rows: u32,
) -> Result<Session<MemSink>, (MemSink, Fault)>
    ensures hands { IfOk result (λ session. (row : ℕ) → hand_on session row ≡ None) }
    ensures slot { IfOk result (λ session. (rest_of session).seat.slot ≡ 3) }
    ensures marks { IfOk result (λ session. (rest_of session).marks ≡ []) }
    ensures empty { IfOk result (λ session. (rest_of session).in_hand ≡ 0) }
    ensures count { IfOk result (λ session. opened_count session ≡ 0) }
{
    let seat = Seat {
        slot: SLOT,
        id: 5,
        conn: 7,
    };
    let config = Config {
        rules: Items::new(Vec::new(alloc)),
        chunks,
        stackwalk: false,
        rundown,
    };
    Session::start(alloc, sink, reply, seat, config, &standard_info(1, 1), rows)
}

/// The program's events.
pub(super) fn program(alloc: Global) -> Result<Vec<EventDef>, AllocError>
    ensures { IfOk result (λ events. events.items ≡ event_e ∷ []) }
{
    Ok(Vec::from_array(alloc, [event(alloc)?])?)
}

fn text(alloc: Global, unit: u16) -> Result<Units, AllocError>
    ensures { IfOk result (λ text. text ≡ unit ∷ []) }
{
    Ok(Items::new(Vec::from_array(alloc, [unit])?))
}

/// The program's event: E of the provider P.
pub(super) fn event(alloc: Global) -> Result<EventDef, AllocError>
    ensures { IfOk result (λ def. def ≡ event_e) }
{
    let provider = text(alloc, 0x50)?;
    let name = text(alloc, 0x45)?;
    Ok(EventDef {
        provider,
        id: 1,
        version: 0,
        level: 4,
        keywords: 1,
        name,
        fields: Items::new(Vec::new(alloc)),
    })
}

// A write of the event with neither frames nor payload.
fn write(alloc: Global) -> Write
    ensures { result.event ≡ 1 }
{
    Write {
        event: 1,
        activity: [0; 16],
        related: [0; 16],
        frames: Items::new(Vec::new(alloc)),
        payload: Items::new(Vec::new(alloc)),
    }
}
