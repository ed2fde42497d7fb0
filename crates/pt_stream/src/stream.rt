//! A session's stream over the rows of a run.
ghost use Rattle.std.specs.Prelude.{◌≡◌, ◌≢◌, ℕ, ◌+◌, ◌-◌, ◌^◌, ◌<◌, ◌≤◌, ◌++◌, ◌&&◌, true, false, None, Some, length, replicate, vec_len, IsSome, IsTrue, IfOk, IfErr, OnOk, OnErr};
ghost use Rattle.std.specs.List.{AllByRecursion};
ghost use Rattle.std.specs.Option.{ForSome};
ghost use Rattle.pt_io.specs.Faults.{HasRisen};
ghost use Rattle.nt_write.specs.declared.fault.Fault.TheVariants.{OutOfMemory, TooLong, WriteFault};
ghost use Rattle.ep_stream.specs.declared.session.Fate.TheVariants as fates;
ghost use Rattle.ep_defs.specs.declared.limits.TheConstants.{SESSIONS};
ghost use Rattle.ep_stream.specs.Session.{TookStart};
ghost use Rattle.ep_guarded.specs.Granted.{IsGrantFor};
ghost use Rattle.ep_live.specs.Made.{AreStands};
ghost use Rattle.ep_live.specs.RowSet.{AreFresh};
ghost use Rattle.ep_live_laws.specs.Tracing.{is_fault};
ghost use Rattle.pt_stream.specs.End.{HasEnded, Leaves};
ghost use Rattle.pt_stream.specs.Setting.{watch_of};
ghost use Rattle.pt_stream.specs.State.{AreEvents, EndsAt, IsDone, IsMarked, IsShut, closed_on, first_seat, is_complete, new_stream, no_place, opened_on, place_at, stays_early};

use crate::place::Place;
use crate::run::Run;
use crate::start::{Accepted, NotStarted};
use ep_defs::limits::SESSION_THREADS;
use ep_defs::{Config, Duplicate, TraceInfo};
use ep_guarded::{Agreed, NotOpened};
use ep_live::{Ended, Live, LiveRows, Parked, Stands, same_tests_have_the_same_stands};
use ep_live_laws::{
    a_call_that_takes_nothing_changes_no_trace, a_closed_row_is_traced,
    a_session_starts_with_no_trace, a_session_that_ends_has_traced, a_sweep_is_traced,
    an_opened_row_is_traced,
};
use ep_stream::{Fate, RowSet, Seat, Session, SessionEnd};
use ep_tie::Right;
use nt_write::Fault;
use pt_io::Sink;
use std::alloc::{AllocError, Global};
use std::marker::Model;
use std::sync::Wait;

/// A session over a run's rows. Contracts see which session it is, what it has of each row, and its marks.
#[derive(Drop)]
pub struct Stream<'a, P: Run, S: Sink> {
    seat: Seat,
    rows: Parked<'a, P>,
    session: Session<S>,
    // By row.
    places: Vec<Place>,
    // On how many threads it was opened.
    openings: u32,
    // How many writes each thread has begun, while the rows have the halves of all threads.
    stands: Option<u32>,
    early: bool,
}

impl<'a, P: Run, S: Sink> Model for Stream<'a, P, S> {
    ghost use Rattle.std.specs.Prelude.{◌≡◌};
    ghost use Rattle.ep_stream.specs.Session.{rest_of, sink_of};
    ghost use Rattle.pt_stream.specs.Kept.{IsKept};
    ghost use Rattle.pt_stream.specs.State.{StreamState};

    ghost Value = { StreamState };

    ghost view = { λ s. record { id = s.seat.id; slot = s.seat.slot; conn = s.seat.conn; config = (rest_of s.session).config; gave = S.read_side (sink_of s.session); stands = s.stands; places = s.places.items; marks = (rest_of s.session).marks; early = s.early } };

    ghost invariant = { λ s. (s.rows.stands ≡ s.stands) × IsKept S.Sink P.rows P.events P.writes P.setting s.rows s.session s.openings s.seat s.places.items s.early };
}

impl<'a, P: Run, S: Sink> Stream<'a, P, S> {
    /// Starts the stream of a session: writes the reply to who asked for it, if there is one, and the stream's start. It is open
    /// on no row. It takes its memory first, but for what the stream's start needs. Where it fails the slot comes back, and
    /// the sink, with the fault: one of a write, or a want of memory. It may wait for the session's pool.
    pub fn start<R: Wait>(
        alloc: Global,
        rt: &R,
        live: &Live<'a, P>,
        accepted: Accepted<'a, P, S>,
        reply: &[u8],
        info: &TraceInfo,
    ) -> Result<Stream<'a, P, S>, NotStarted<'a, P, S>>
        requires pool { accepted.pool ≡ first_seat accepted.grant.now.pool (P.rows + 1) }
        requires granted { IsGrantFor P.events accepted.grant.now }
        requires info { info.now ≡ P.setting.info }
        requires before { IsTrue (S.tells_taken accepted.sink)
            → S.taken accepted.sink ++ reply.now ≡ P.setting.before accepted.id }
        requires faults { S.write_faults accepted.sink ≡ P.setting.faults accepted.id }
        ensures started { IfOk result (λ stream. stream ≡ new_stream P.rows accepted.entry.id accepted.entry.free
            accepted.entry.conn accepted.entry.grant.now.config (S.read_side accepted.entry.sink)) }
        ensures free { IfErr result (λ failed. failed.free ≡ accepted.entry.free) }
        ensures part { IfErr result (λ failed. TookStart S.tells_taken S.taken reply.now info.now
            accepted.entry.sink failed.sink) }
        ensures told { IfErr result (λ failed. S.tells_taken failed.sink ≡ S.tells_taken accepted.entry.sink) }
        ensures write_fault { IfErr result (λ failed. failed.fault ≡ WriteFault
            → HasRisen (S.write_faults accepted.entry.sink) (S.write_faults failed.sink)) }
        ensures not_long { IfErr result (λ failed. failed.fault ≢ TooLong) }
        ensures memory { IfErr result (λ failed. failed.fault ≡ OutOfMemory
            → S.write_faults failed.sink ≡ S.write_faults accepted.entry.sink) }
    {
        let Accepted {
            free,
            grant,
            pool,
            sink,
            id,
            conn,
        } = accepted;
        match Memory::new(alloc, &grant.config, live.threads()) {
            Ok(memory) => {
                let Memory {
                    config,
                    places,
                    lives,
                } = memory;
                let seat = Seat {
                    slot: free.slot(),
                    id,
                    conn,
                };
                let stands = Stands::none(alloc);
                let rows = LiveRows::new(rt, live, free, grant, pool, stands, lives);
                let fresh = Fresh {
                    rows,
                    seat,
                    config,
                    places,
                };
                begin(alloc, rt, fresh, sink, reply, info)
            }
            Err(_) => {
                let mut seat = pool;
                // The pool has so few that no count of them runs over.
                let _chunks = grant.pool.total();
                grant.pool.drain(rt, &mut seat);
                Err(NotStarted {
                    free,
                    sink,
                    fault: Fault::OutOfMemory,
                })
            }
        }
    }

    /// The session's id.
    pub fn id(&self) -> u64
        ensures { result ≡ self.now.id }
    {
        self.seat.id
    }

    /// Its slot on each row, from 0.
    pub fn slot(&self) -> u32
        ensures { (result ≡ self.now.slot) × (result < SESSIONS) }
    {
        self.seat.slot
    }

    /// The number of the connection that asked for it.
    pub fn conn(&self) -> u32
        ensures { result ≡ self.now.conn }
    {
        self.seat.conn
    }

    /// What it has of a row, the first being row 1.
    pub fn place(&self, row: u32) -> Place
        requires { (0 < row) × (row ≤ P.rows) }
        ensures place { result ≡ place_at self.now.places row }
        ensures count { length self.now.places ≡ P.rows }
    {
        self.places[row as usize - 1]
    }

    /// Whether it was opened on each row.
    pub fn is_complete(&self) -> bool
        ensures { result ≡ is_complete self.now }
    {
        self.places.iter().all(|place| place.next > 0)
    }

    /// Whether it was first opened on each row, where it was, in the row's first life and before the thread's first write.
    pub fn is_early(&self) -> bool
        ensures { result ≡ self.now.early }
    {
        self.early
    }

    /// Takes the halves of all threads, by row, each of which has begun so many writes. It takes no memory.
    pub fn take_back<R: Wait>(
        self,
        rt: &R,
        live: &Live<'a, P>,
        halves: Vec<Right<P, Agreed<'a>>>,
        index: u32,
    ) -> Stream<'a, P, S>
        requires count { vec_len halves ≡ P.rows }
        requires halves { AreStands index halves.items }
        ensures { result ≡ record self.entry { stands = Some index } }
    {
        let Stream {
            seat,
            rows,
            session,
            places,
            openings,
            stands: _,
            early,
        } = self;
        let mut rows = rows.resume(rt, live);
        rows.take_back(halves, index);
        Stream {
            seat,
            rows: rows.park(),
            session,
            places,
            openings,
            stands: Some(index),
            early,
        }
    }

    /// Lends the halves of all threads to those that write, by row. It takes no memory.
    pub fn lend<R: Wait>(
        self,
        rt: &R,
        live: &Live<'a, P>,
    ) -> (Stream<'a, P, S>, Vec<Right<P, Agreed<'a>>>)
        requires here { IsSome self.stands }
        ensures count { vec_len result.1 ≡ P.rows }
        ensures halves { ForSome self.entry.stands (λ index. AreStands index result.1.items) }
        ensures lent { result.0 ≡ record self.entry { stands = None } }
    {
        let Stream {
            seat,
            rows,
            session,
            places,
            openings,
            stands: _,
            early,
        } = self;
        let mut rows = rows.resume(rt, live);
        let halves = rows.lend();
        let stream = Stream {
            seat,
            rows: rows.park(),
            session,
            places,
            openings,
            stands: None,
            early,
        };
        (stream, halves)
    }

    /// Opens it on a row, the first being row 1, in this life of the row's, a later one than all in which it was opened there.
    /// Where the row has left, or serves another life, and where there is no memory, it is as it was; so it is where it
    /// was opened on as many threads as a session can be. It waits for the row and for its buffer.
    pub fn open_row<R: Wait>(
        self,
        alloc: Global,
        rt: &R,
        live: &Live<'a, P>,
        row: u32,
        life: u32,
    ) -> (Stream<'a, P, S>, Result<(), NotOpened>)
        requires row { (0 < row) × (row ≤ P.rows) }
        requires shut { (place_at self.places row).is_open ≡ false }
        requires later { (place_at self.places row).next ≤ life }
        requires few { (life < P.setting.lives) × (P.setting.lives < 2 ^ 32) }
        ensures opened { OnOk result.1 (result.0 ≡ opened_on row life self.entry) }
        ensures not { OnErr result.1 (result.0 ≡ self.entry) }
    {
        an_opened_row_is_traced::<S>();
        a_call_that_takes_nothing_changes_no_trace::<S>();
        same_tests_have_the_same_stands();
        if self.openings as usize == SESSION_THREADS {
            return (self, Err(NotOpened::OutOfMemory));
        }
        let Stream {
            seat,
            rows,
            mut session,
            mut places,
            openings,
            stands,
            early,
        } = self;
        let mut rows = rows.resume(rt, live);
        rows.expect(row, life);
        match session.attach(alloc, &mut rows, row) {
            Ok(()) => {
                let number = row as usize - 1;
                let early = stays_early(early, stands, &places[number], life);
                places[number] = Place {
                    next: life + 1,
                    is_open: true,
                };
                let stream = Stream {
                    seat,
                    rows: rows.park(),
                    session,
                    places,
                    openings: openings + 1,
                    stands,
                    early,
                };
                (stream, Ok(()))
            }
            Err(_) => {
                let why = not_opened(rows.missed());
                let stream = Stream {
                    seat,
                    rows: rows.park(),
                    session,
                    places,
                    openings,
                    stands,
                    early,
                };
                (stream, Err(why))
            }
        }
    }

    /// Takes all that is pending of each row on which it is open, writes it, and gives the chunks back; where there was a record
    /// it ends with a point. A fault stays with the session, which says it at its end. Answers how many records there
    /// were. It waits for the rows' buffers and for the session's pool.
    pub fn sweep<R: Wait>(
        self,
        alloc: Global,
        rt: &R,
        live: &Live<'a, P>,
        stamp: u64,
    ) -> (Stream<'a, P, S>, Result<u64, Fault>)
        requires events { AreEvents P.events }
        ensures { result.0 ≡ self.entry }
    {
        a_sweep_is_traced::<S>();
        same_tests_have_the_same_stands();
        let Stream {
            seat,
            rows,
            mut session,
            places,
            openings,
            stands,
            early,
        } = self;
        let mut rows = rows.resume(rt, live);
        let answer = session.sweep(alloc, &mut rows, stamp, live.events());
        let stream = Stream {
            seat,
            rows: rows.park(),
            session,
            places,
            openings,
            stands,
            early,
        };
        (stream, answer)
    }

    /// Closes it on a row, writes what was pending there, and gives the chunks back. A fault stays with the session, which says
    /// it at its end. While the stream has the threads' halves its marks end where the threads stand. It waits for the
    /// row, for its buffer and for the session's pool.
    pub fn close_row<R: Wait>(
        self,
        alloc: Global,
        rt: &R,
        live: &Live<'a, P>,
        row: u32,
    ) -> Stream<'a, P, S>
        requires row { (0 < row) × (row ≤ P.rows) }
        requires open { (place_at self.places row).is_open ≡ true }
        requires events { AreEvents P.events }
        ensures closed { result ≡ closed_on row result.marks self.entry }
        ensures marked { IsMarked P.rows row (place_at self.entry.places row) self.entry.stands None
            self.entry.marks result.marks }
        ensures ends { (to : ℕ) → self.entry.stands ≡ Some to → AllByRecursion (EndsAt to) self.entry.marks
            → AllByRecursion (EndsAt to) result.marks }
    {
        self.close(alloc, rt, live, row, None)
    }

    /// The same once the row's thread has made so many writes, which are all that each thread makes. It waits for these too.
    /// The stream does not have the threads' halves.
    pub fn close_done<R: Wait>(
        self,
        alloc: Global,
        rt: &R,
        live: &Live<'a, P>,
        row: u32,
        writes: u32,
    ) -> Stream<'a, P, S>
        requires row { (0 < row) × (row ≤ P.rows) }
        requires open { (place_at self.places row).is_open ≡ true }
        requires lent { self.stands ≡ None }
        requires each { (thread : ℕ) → length (P.writes thread) ≡ writes }
        requires events { AreEvents P.events }
        ensures closed { result ≡ closed_on row result.marks self.entry }
        ensures marked { IsMarked P.rows row (place_at self.entry.places row) self.entry.stands (Some writes)
            self.entry.marks result.marks }
        ensures done { AllByRecursion (IsDone P.writes) self.entry.marks
            → AllByRecursion (IsDone P.writes) result.marks }
    {
        self.close(alloc, rt, live, row, Some(writes))
    }

    // Closes it on a row, once its thread has made so many writes, where that is asked.
    fn close<R: Wait>(
        self,
        alloc: Global,
        rt: &R,
        live: &Live<'a, P>,
        row: u32,
        ends: Option<u32>,
    ) -> Stream<'a, P, S>
        requires row { (0 < row) × (row ≤ P.rows) }
        requires open { (place_at self.places row).is_open ≡ true }
        requires events { AreEvents P.events }
        ensures closed { result ≡ closed_on row result.marks self.entry }
        ensures marked { IsMarked P.rows row (place_at self.entry.places row) self.entry.stands ends
            self.entry.marks result.marks }
    {
        a_closed_row_is_traced::<S>();
        a_call_that_takes_nothing_changes_no_trace::<S>();
        same_tests_have_the_same_stands();
        let Stream {
            seat,
            rows,
            mut session,
            mut places,
            openings,
            stands,
            early,
        } = self;
        let mut rows = rows.resume(rt, live);
        rows.close_at(ends);
        // A fault stays with the session, which says it at its end.
        let _ = session.detach(alloc, &mut rows, row, live.events());
        session.give(&mut rows);
        places[row as usize - 1].is_open = false;
        Stream {
            seat,
            rows: rows.park(),
            session,
            places,
            openings,
            stands,
            early,
        }
    }

    /// Ends the session, which is open on no row: writes the section of a rundown, where it was asked for one, the last point
    /// and the end of the stream, unless it has failed. Its fate is then that of the fault, and else the one that is handed in: where that is no fault, it was opened on each
    /// row, and where the program has ended, each thread of which it tells has made all its writes. Its rows' slot and
    /// pool are left, with all chunks.
    pub fn end<R: Wait>(
        self,
        alloc: Global,
        rt: &R,
        live: &Live<'a, P>,
        stamp: u64,
        fate: Fate,
    ) -> (SessionEnd<S>, Ended<'a, P>)
        requires shut { IsShut P.rows self }
        requires own { (fate ≢ fates.LinkFault) × (fate ≢ fates.TooLong) }
        requires complete { is_fault fate ≡ false → is_complete self ≡ true }
        requires done { fate ≡ fates.ProgramEnd → AllByRecursion (IsDone P.writes) self.marks }
        requires events { AreEvents P.events }
        ensures ended { HasEnded S.Sink (watch_of P.rows P.events P.writes P.setting self.entry.config self.entry.id)
            P.rows P.setting.lives (P.setting.faults self.entry.id) self.entry fate result.0 }
        ensures left { Leaves self.entry result.1 }
    {
        a_session_that_ends_has_traced::<S>();
        let Stream { rows, session, .. } = self;
        let ended = rows.resume(rt, live).end();
        (session.finish(alloc, stamp, fate, live.events()), ended)
    }
}

// What a stream takes memory for before its first write.
#[derive(Drop)]
struct Memory {
    config: Config,
    places: Vec<Place>,
    lives: Vec<u32>,
}

impl Memory {
    fn new(alloc: Global, config: &Config, rows: u32) -> Result<Memory, AllocError>
        ensures config { IfOk result (λ memory. memory.config ≡ config.now) }
        ensures places { IfOk result (λ memory. memory.places.items ≡ replicate rows no_place) }
        ensures lives { IfOk result (λ memory. vec_len memory.lives ≡ rows) }
    {
        let never = Place {
            next: 0,
            is_open: false,
        };
        Ok(Memory {
            config: config.copy(alloc)?,
            places: vec![in alloc; never; rows as usize]?,
            lives: vec![in alloc; 0u32; rows as usize]?,
        })
    }
}

// A session's rows, on none of which it is open, its seat and its configuration, and a place for each row.
#[derive(Drop)]
struct Fresh<'r, 'a, P: Run, R: Wait> {
    rows: LiveRows<'r, 'a, P, R>,
    seat: Seat,
    config: Config,
    places: Vec<Place>,
}

// Begins the stream of a session that is open on none of its rows.
fn begin<'a, P: Run, R: Wait, S: Sink>(
    alloc: Global,
    rt: &R,
    fresh: Fresh<'_, 'a, P, R>,
    sink: S,
    reply: &[u8],
    info: &TraceInfo,
) -> Result<Stream<'a, P, S>, NotStarted<'a, P, S>>
    requires slot { (fresh.seat.slot ≡ fresh.rows.slot) × (fresh.seat.slot < SESSIONS) }
    requires config { fresh.config ≡ fresh.rows.grant.config }
    requires fresh { AreFresh P.rows fresh.seat.slot fresh.rows.grant fresh.rows.seat None fresh.rows.lives fresh.rows }
    requires dry { fresh.rows.seat.dry ≡ 0 }
    requires places { fresh.places.items ≡ replicate P.rows no_place }
    requires info { info.now ≡ P.setting.info }
    requires before { IsTrue (S.tells_taken sink) → S.taken sink ++ reply.now ≡ P.setting.before fresh.seat.id }
    requires faults { S.write_faults sink ≡ P.setting.faults fresh.seat.id }
    ensures started { IfOk result (λ stream. stream ≡ new_stream P.rows fresh.entry.seat.id fresh.entry.seat.slot
        fresh.entry.seat.conn fresh.entry.config (S.read_side sink)) }
    ensures free { IfErr result (λ failed. failed.free ≡ fresh.entry.seat.slot) }
    ensures part { IfErr result (λ failed. TookStart S.tells_taken S.taken reply.now info.now sink failed.sink) }
    ensures told { IfErr result (λ failed. S.tells_taken failed.sink ≡ S.tells_taken sink) }
    ensures write_fault { IfErr result (λ failed. failed.fault ≡ WriteFault
        → HasRisen (S.write_faults sink) (S.write_faults failed.sink)) }
    ensures not_long { IfErr result (λ failed. failed.fault ≢ TooLong) }
    ensures memory { IfErr result (λ failed. failed.fault ≡ OutOfMemory
        → S.write_faults failed.sink ≡ S.write_faults sink) }
{
    a_session_starts_with_no_trace::<S>();
    let Fresh {
        rows,
        seat,
        config,
        places,
    } = fresh;
    let count = rows.threads();
    match Session::start(alloc, sink, reply, seat, config, info, count) {
        Ok(session) => Ok(Stream {
            seat,
            rows: rows.park(),
            session,
            places,
            openings: 0,
            stands: None,
            early: true,
        }),
        Err((sink, fault)) => {
            let (free, _) = rows.end().retire(rt);
            Err(NotStarted { free, sink, fault })
        }
    }
}

// Whether a session is an early one after an opening on a row.
fn stays_early(early: bool, stands: Option<u32>, place: &Place, life: u32) -> bool
    ensures { result ≡ (early && stays_early stands place.now life) }
{
    early && (place.next > 0 || life == 0 && stands == Some(0))
}

// Why a session was not opened on a row, where it may have found the row away.
fn not_opened(missed: bool) -> NotOpened {
    if missed {
        NotOpened::Away
    } else {
        NotOpened::OutOfMemory
    }
}
