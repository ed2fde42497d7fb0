//! Rows and buffers behind locks.
ghost use Rattle.std.specs.Prelude.{◌≡◌, ◌≢◌, ◌+◌, ◌-◌, ◌*◌, ◌^◌, ◌<◌, ◌≤◌, ℕ, true, false, length, vec_len, option_map, slice_get, Some, None, IfOk, IfErr, IfNone, IfSome, OnOk, OnErr, OnSome, IsSome, IsTrue, ◌==◌, if◌then◌else◌};
ghost use Rattle.std.specs.Int.{bit_at};
ghost use Rattle.std.specs.Option.{ForSome};
ghost use Rattle.ep_row.specs.Bits.{one_if, ClearsBit};
ghost use Rattle.ep_row.specs.Row.{mask_of, with_begin};
ghost use Rattle.ep_defs.specs.Session as valid;
ghost use Rattle.ep_slot.specs.Slot.{is_refused};
ghost use Rattle.ep_guarded.specs.declared.agreed.Agreed.TheVariants as agreed;
ghost use Rattle.ep_guarded.specs.Tied.{stand_in, left_in, hand_in, next_stand, thread_of, buffer_number, buffer_place, hand_place, ChangesOpenings, IsNextOf};
ghost use Rattle.ep_guarded.specs.Sessions.{Opens, TakesWith, Closes, IsOpenable, IsClosable};
ghost use Rattle.ep_live.specs.Live.{with_one, IsNextWrite};
ghost use Rattle.ep_live.specs.Written.{AnswersBehind, AreAnswered, IsWritten, IsWrittenBehind};
ghost use Rattle.ep_live.specs.Made.{AreStands, AreHandTies};

use crate::limits::ROW_TIES;
use crate::made::{make_rows, make_stands};
use crate::next_write::NextWrite;
use crate::stands::Stands;
use crate::to_close::ToClose;
use crate::turn::Turn;
use crate::written::Written;
use ep_defs::limits::{EVENTS, SESSIONS, WRITES};
use ep_defs::{EventDef, Marks, Write};
use ep_guarded::{Agreed, NotOpened, Program, Site, Stand, TiedBuffer, TiedRow, ToOpen};
use ep_locks::{Guards, Held, Locks};
use ep_pool::PoolSeat;
use ep_slot::{Batch, Hand, Shown};
use ep_tie::{Blank, Right, Ties};
use pt_io::{Gate, Moment};
use std::alloc::{AllocError, Global};
use std::marker::{Model, PhantomData};
use std::sync::Wait;
use std::sync::atomic::{AtomicU64, Ordering};
use std::thread;

/// Under each number stands the row with this number, which is not in a write.
pub struct RowsByNumber<P> {
    program: PhantomData<P>,
}

impl<'a, P: Program> Guards<Box<TiedRow<'a, P>>> for RowsByNumber<P> {
    ghost use Rattle.std.specs.Prelude.{◌≡◌, ◌+◌, false};

    ghost holds = { λ k row. (row.value.number ≡ k) × (row.value.row.in_write ≡ false) };
}

/// Under each number stands the buffer with this number.
pub struct BuffersByNumber<P> {
    program: PhantomData<P>,
}

impl<'a, P: Program> Guards<Box<TiedBuffer<'a, P>>> for BuffersByNumber<P> {
    ghost use Rattle.std.specs.Prelude.{◌≡◌};
    ghost use Rattle.ep_guarded.specs.Tied.{buffer_place};

    ghost holds = { λ k buffer. buffer.value.place ≡ buffer_place P.rows k };
}

/// The rows of a program's threads and their buffers, which threads share by reference. Contracts see how many rows there
/// are.
#[derive(Drop)]
pub struct Live<'a, P: Program> {
    rows: Locks<Box<TiedRow<'a, P>>, RowsByNumber<P>>,
    buffers: Locks<Box<TiedBuffer<'a, P>>, BuffersByNumber<P>>,
    ties: Ties<P, Agreed<'a>>,
    events: Vec<EventDef>,
}

impl<'a, P: Program> Model for Live<'a, P> {
    ghost use Rattle.ep_live.specs.Live.{LiveState, IsWhole};

    ghost Value = { LiveState };

    ghost view = { λ l. record { rows = l.rows.count; locks = l.rows.row } };

    ghost invariant = { λ l. IsWhole P.rows P.events l.rows.count l.buffers.count l.events.items };
}

impl<'a, P: Program> Live<'a, P> {
    /// What a run of a program with so many rows begins with, where no thread has made a write and no session is open: the
    /// rows and buffers, the threads' halves of the ties to their rows, by row, and the halves of the hands that are to
    /// come, by the number of the buffer. It waits for nobody.
    pub fn new(
        alloc: Global,
        blank: Blank<Agreed<'a>>,
        rows: u32,
        events: Vec<EventDef>,
    ) -> Result<
        (
            Live<'a, P>,
            Vec<Right<P, Agreed<'a>>>,
            Vec<Right<P, Agreed<'a>>>,
        ),
        AllocError,
    >
        requires ties { blank.ties ≡ P.ties }
        requires places { blank.places ≡ rows + ROW_TIES * rows }
        requires rows { rows ≡ P.rows }
        requires events { events.items ≡ P.events }
        requires few { length events.items ≤ EVENTS }
        ensures thread_count { IfOk result (λ made. vec_len made.1 ≡ P.rows) }
        ensures threads { IfOk result (λ made. AreStands 0 made.1.items) }
        ensures hand_count { IfOk result (λ made. vec_len made.2 ≡ P.rows * SESSIONS) }
        ensures hands { IfOk result (λ made. AreHandTies P.rows made.2.items) }
    {
        let (ties, mut maker) = blank.open::<P>();
        let (stands, threads) = make_stands(alloc, &ties, &mut maker, rows)?;
        let count = events.len() as u32;
        let (rows, buffers, hands) = make_rows(alloc, &ties, &mut maker, stands, count)?;
        let live = Live {
            rows: Locks::new(alloc, rows)?,
            buffers: Locks::new(alloc, buffers)?,
            ties,
            events,
        };
        Ok((live, threads, hands))
    }

    /// How many rows there are.
    pub fn threads(&self) -> u32
        ensures { result ≡ P.rows }
    {
        self.rows.count() as u32
    }

    /// The definitions of the program's events.
    pub fn events(&self) -> &[EventDef]
        ensures { result.now ≡ P.events }
    {
        self.events.as_slice()
    }

    /// How far the thread of the row with this number has come, by its half of the tie. It waits for the row.
    pub fn stand<R: Wait>(&self, rt: &R, number: usize, half: &mut Right<P, Agreed<'a>>) -> Stand
        requires row { number < P.rows }
        requires place { half.old.place ≡ number }
        requires here { IsSome (stand_in half.old.value) }
        ensures stand { stand_in half.old.value ≡ Some result }
        ensures same { half.new ≡ half.old }
    {
        let (mut row, held) = self.rows.take(rt, number);
        let stand = row.stands(&self.ties, half);
        self.rows.put(held, row);
        stand
    }

    /// The next write of the thread of the row with this number, which has its half of the tie: it is shown to each session
    /// that gets it. The thread passes the gate at this moment, between the begin and the first show. It waits for the row,
    /// for each buffer that is due and for the pools of their sessions, and takes no memory. It answers the write's number,
    /// and which sessions it was shown to and which of them refused it.
    pub fn write<R: Wait, G: Gate>(
        &self,
        rt: &R,
        gate: &G,
        number: usize,
        half: &mut Right<P, Agreed<'a>>,
        next: &NextWrite<'_>,
    ) -> Written
        requires row { number < P.rows }
        requires place { half.old.place ≡ number }
        requires here { IsSome (stand_in half.old.value) }
        requires few { ForSome (stand_in half.old.value) (λ s. s.index < WRITES) }
        requires next { ForSome (stand_in half.old.value) (λ s. slice_get (P.writes s.thread) s.index ≡ Some next.now.write.now) }
        requires some { 0 < next.now.write.now.event }
        requires event { next.now.write.now.event ≤ length P.events }
        requires fits { IsTrue (valid.fits next.now.write.now) }
        ensures answer { IsWrittenBehind next.now.stamp next.now.write.now half.old.value result }
        ensures stands { stand_in half.new.value ≡ option_map with_one (stand_in half.old.value) }
        ensures place { half.new.place ≡ half.old.place }
    {
        let (mut row, held) = self.rows.take(rt, number);
        let written = self.write_on(rt, gate, number, &mut row, half, next);
        self.rows.put(held, row);
        written
    }

    /// The next write of the thread of the row with this number, which has its half of the tie, where no session gets it: it
    /// is taken by, and nothing of it needs to be known but its event. The thread passes the gate at this moment. Where a
    /// session gets it, the row stays taken for the thread's turn, and nothing has changed. It waits for the row, looks at
    /// one mask, and takes no memory.
    #[inline(always)]
    pub fn pass_over<R: Wait, G: Gate>(
        &self,
        rt: &R,
        gate: &G,
        number: usize,
        half: &mut Right<P, Agreed<'a>>,
        at: Moment,
        event: u32,
    ) -> Option<Turn<'_, 'a, P>>
        requires row { number < P.rows }
        requires place { half.old.place ≡ number }
        requires here { IsSome (stand_in half.old.value) }
        requires few { ForSome (stand_in half.old.value) (λ s. s.index < WRITES) }
        requires next { ForSome (stand_in half.old.value) (λ s. IsNextOf event (P.writes s.thread) s.index) }
        requires some { 0 < event }
        requires event { event ≤ length P.events }
        ensures stands { IfNone result (stand_in half.new.value ≡ option_map with_one (stand_in half.old.value)) }
        ensures turn { IfSome result (λ turn. turn.number ≡ number) }
        ensures wanted { IfSome result (λ turn. mask_of turn.row event ≢ 0) }
        ensures stays { OnSome result (half.new ≡ half.old) }
        ensures place { half.new.place ≡ half.old.place }
    {
        let (mut row, held) = self.rows.take(rt, number);
        if row.pass_over(&self.ties, half, event) {
            gate.pass(at);
            self.rows.put(held, row);
            return None;
        }
        Some(Turn {
            live: self,
            number,
            row,
            held,
        })
    }

    // Gives back a row that was taken.
    pub(crate) fn put_row(&self, held: Held<Box<TiedRow<'a, P>>>, row: Box<TiedRow<'a, P>>)
        requires own { held.row ≡ self.now.locks }
        requires meets { (row.value.number ≡ held.number) × (row.value.row.in_write ≡ false) }
    {
        self.rows.put(held, row);
    }

    // The next write of the thread of this row, which was taken.
    pub(crate) fn write_on<R: Wait, G: Gate>(
        &self,
        rt: &R,
        gate: &G,
        number: usize,
        row: &mut TiedRow<'a, P>,
        half: &mut Right<P, Agreed<'a>>,
        next: &NextWrite<'_>,
    ) -> Written
        requires within { number < P.rows }
        requires number { row.old.number ≡ number }
        requires quiet { row.old.row.in_write ≡ false }
        requires place { half.old.place ≡ number }
        requires write { IsNextWrite P.events P.writes half.old.value next.now.write.now }
        ensures answer { IsWritten next.now.stamp next.now.write.now row.old.row row.new.row result }
        ensures row { row.new.row ≡ record (with_begin row.old.row next.now.stamp next.now.write.now)
            { in_write = false; due = 0; slots = row.new.row.slots } }
        ensures number { row.new.number ≡ row.old.number }
        ensures stood { stand_in half.old.value ≡ Some (record { thread = row.old.row.thread; index = row.old.row.index }) }
        ensures stands { stand_in half.new.value ≡ option_map with_one (stand_in half.old.value) }
        ensures place { half.new.place ≡ half.old.place }
    {
        let shown = row.begin(&self.ties, half, next.stamp, next.write);
        gate.pass(next.at);
        let refused = self.show_all(rt, number, row, next.write);
        row.end();
        Written {
            number: row.index(),
            shown,
            refused,
        }
    }

    // Shows the write that was begun to each session that is due. Answers a bit for each slot in which it was refused.
    fn show_all<R: Wait>(
        &self,
        rt: &R,
        number: usize,
        row: &mut TiedRow<'a, P>,
        write: &Write,
    ) -> u64
        requires within { number < P.rows }
        requires number { row.old.number ≡ number }
        requires begun { 0 < row.old.row.index }
        requires last { slice_get (P.writes row.old.row.thread) (row.old.row.index - 1) ≡ Some write.now }
        requires fits { IsTrue (valid.fits write.now) }
        ensures none { row.new.row.due ≡ 0 }
        ensures answers { AreAnswered write.now result row.old.row row.new.row }
        ensures others { row.new.row ≡ record row.old.row { due = row.new.row.due; slots = row.new.row.slots } }
        ensures number { row.new.number ≡ row.old.number }
    {
        let mut refused = 0;
        while let Some(slot) = row.next_due() {
            let shown = self.show_one(rt, number, slot, row, write);
            refused = with_answer(refused, slot, shown);
        }
        refused
    }

    // Shows it to one of them, under its buffer's lock.
    fn show_one<R: Wait>(
        &self,
        rt: &R,
        number: usize,
        slot: u32,
        row: &mut TiedRow<'a, P>,
        write: &Write,
    ) -> Shown
        requires within { number < P.rows }
        requires slot { slot < SESSIONS }
        requires number { row.old.number ≡ number }
        requires due { bit_at row.old.row.due slot ≡ 1 }
        requires begun { 0 < row.old.row.index }
        requires last { slice_get (P.writes row.old.row.thread) (row.old.row.index - 1) ≡ Some write.now }
        requires fits { IsTrue (valid.fits write.now) }
        ensures answer { AnswersBehind slot write.now result row.old.row row.new.row }
        ensures due { ClearsBit slot row.old.row.due row.new.row.due }
        ensures others { row.new.row ≡ record row.old.row { due = row.new.row.due; slots = row.new.row.slots } }
        ensures number { row.new.number ≡ row.old.number }
    {
        let (mut buffer, held) = self.buffers.take(rt, buffer_at(number, slot));
        let shown = row.show(rt, &self.ties, slot, &mut buffer, write);
        self.buffers.put(held, buffer);
        shown
    }

    /// The thread of the row with this number, which has made all its writes and has its half of the tie, leaves the row. A
    /// bit for each slot in which a session is open there is stored while no session can be opened or closed there. It
    /// waits for the row, and takes no memory.
    pub fn leave<R: Wait>(
        &self,
        rt: &R,
        number: usize,
        half: &mut Right<P, Agreed<'a>>,
        on: &AtomicU64,
    )
        requires row { number < P.rows }
        requires place { half.old.place ≡ number }
        requires here { IsSome (stand_in half.old.value) }
        requires all { ForSome (stand_in half.old.value) (λ s. s.index ≡ length (P.writes s.thread)) }
        ensures left { left_in half.new.value ≡ stand_in half.old.value }
        ensures place { half.new.place ≡ half.old.place }
    {
        let (mut row, held) = self.rows.take(rt, number);
        row.leave(&self.ties, half);
        on.store(row.on(), Ordering::SeqCst);
        self.rows.put(held, row);
    }

    /// The next thread of the row with this number enters it, which the one before has left, unless a session is still open
    /// on it. It waits for the row, and takes no memory.
    pub fn enter<R: Wait>(&self, rt: &R, number: usize, half: &mut Right<P, Agreed<'a>>) -> bool
        requires row { number < P.rows }
        requires place { half.old.place ≡ number }
        requires left { IsSome (left_in half.old.value) }
        requires few { ForSome (left_in half.old.value) (λ s. s.thread + P.rows < 2 ^ 32) }
        ensures entered { result ≡ true → stand_in half.new.value ≡ option_map (next_stand P.rows) (left_in half.old.value) }
        ensures stays { result ≡ false → half.new ≡ half.old }
        ensures place { half.new.place ≡ half.old.place }
    {
        let (mut row, held) = self.rows.take(rt, number);
        let entered = row.enter(&self.ties, half, self.threads());
        self.rows.put(held, row);
        entered
    }

    /// The life that the row with this number serves, from 0, and whether its thread has left it. Both may have changed by
    /// the time they are read. It waits for the row.
    pub fn life<R: Wait>(&self, rt: &R, number: usize) -> (u32, bool)
        requires row { number < P.rows }
    {
        let (row, held) = self.rows.take(rt, number);
        let said = (row.life(), row.has_left());
        self.rows.put(held, row);
        said
    }

    /// Opens a session, and gives its hand. Where the row has left, or serves another life, it answers so. Where the
    /// threads' halves are lent, the session begins where the thread stands. The seat of its pool gives a share to the
    /// buffer. It waits for the row and for the buffer. Unless it opens the session all stays as it was.
    pub fn open<R: Wait>(
        &self,
        rt: &R,
        alloc: Global,
        asked: &ToOpen<'a>,
        half: &mut Right<P, Agreed<'a>>,
        stands: &mut Stands<'a, P>,
        seat: &mut PoolSeat,
    ) -> Result<Hand, NotOpened>
        requires row { asked.now.site.number < P.rows }
        requires can { IsOpenable P.rows P.events asked.now.site asked.now.grant.now half.old seat.old }
        ensures opens { IfOk result (λ hand. Opens asked.now.session
            (thread_of P.rows asked.now.site.number asked.now.site.life) asked.now.grant.now hand
            half.new.value seat.old seat.new) }
        ensures from { IfOk result (λ hand. ForSome stands.old (λ index. hand.from ≡ index)) }
        ensures none { OnErr result ((half.new ≡ half.old) × (seat.new ≡ seat.old)) }
        ensures place { half.new.place ≡ half.old.place }
        ensures stands { stands.new ≡ stands.old }
    {
        let number = asked.site.number;
        let (mut row, row_held) = self.rows.take(rt, number);
        stands.meet(&self.ties, &mut row, number);
        let (mut buffer, buffer_held) = self.buffers.take(rt, buffer_at(number, asked.site.slot));
        let opened = row.open(alloc, &self.ties, asked, &mut buffer, half, seat);
        self.buffers.put(buffer_held, buffer);
        self.rows.put(row_held, row);
        opened
    }

    /// Closes the session of a hand, and gives what was pending and what the session had of the row's thread. Where the
    /// threads' halves are lent, the session ends where the thread stands. The seat of its pool gets the buffer's share back,
    /// with what was taken through it. It waits for the row and for the buffer, and takes no memory.
    pub fn close<R: Wait>(
        &self,
        rt: &R,
        site: Site,
        half: &mut Right<P, Agreed<'a>>,
        stands: &mut Stands<'a, P>,
        hand: Hand,
        seat: &mut PoolSeat,
    ) -> (Batch, Marks)
        requires row { site.number < P.rows }
        requires can { IsClosable P.rows site half.old hand seat.old }
        ensures closes { Closes P.events P.writes half.old.value hand result.0.chain result.0.last result.1
            seat.old seat.new }
        ensures to { ForSome stands.old (λ index. result.1.to ≡ index) }
        ensures half { half.new.value ≡ Some agreed.Nothing }
        ensures place { half.new.place ≡ half.old.place }
        ensures stands { stands.new ≡ stands.old }
    {
        let (mut row, held) = self.rows.take(rt, site.number);
        stands.meet(&self.ties, &mut row, site.number);
        let closed = self.close_on(rt, site, &mut row, half, hand, seat);
        self.rows.put(held, row);
        closed
    }

    // The same on this row, which was taken, wherever its thread stands.
    fn close_on<R: Wait>(
        &self,
        rt: &R,
        site: Site,
        row: &mut TiedRow<'a, P>,
        half: &mut Right<P, Agreed<'a>>,
        hand: Hand,
        seat: &mut PoolSeat,
    ) -> (Batch, Marks)
        requires within { site.number < P.rows }
        requires number { row.old.number ≡ site.number }
        requires quiet { row.old.row.in_write ≡ false }
        requires can { IsClosable P.rows site half.old hand seat.old }
        ensures closes { Closes P.events P.writes half.old.value hand result.0.chain result.0.last result.1
            seat.old seat.new }
        ensures to { result.1.to ≡ row.old.row.index }
        ensures thread { hand.thread ≡ row.old.row.thread }
        ensures half { half.new.value ≡ Some agreed.Nothing }
        ensures place { half.new.place ≡ half.old.place }
        ensures row { ChangesOpenings row.old row.new }
    {
        let (mut buffer, held) = self.buffers.take(rt, buffer_at(site.number, site.slot));
        let closed = row.close(&self.ties, site, &mut buffer, half, hand, seat);
        self.buffers.put(held, buffer);
        closed
    }

    /// The same where the row serves this life and its thread has begun so many writes. Elsewhere the hand comes back, and
    /// all stays as it was.
    pub fn close_done<R: Wait>(
        &self,
        rt: &R,
        site: Site,
        writes: u32,
        half: &mut Right<P, Agreed<'a>>,
        hand: Hand,
        seat: &mut PoolSeat,
    ) -> Result<(Batch, Marks), Hand>
        requires row { site.number < P.rows }
        requires can { IsClosable P.rows site half.old hand seat.old }
        ensures closes { IfOk result (λ closed. Closes P.events P.writes half.old.value hand closed.0.chain
            closed.0.last closed.1 seat.old seat.new) }
        ensures to { IfOk result (λ closed. closed.1.to ≡ writes) }
        ensures thread { OnOk result (hand.thread ≡ thread_of P.rows site.number site.life) }
        ensures half { OnOk result (half.new.value ≡ Some agreed.Nothing) }
        ensures back { IfErr result (λ back. back ≡ hand) }
        ensures none { OnErr result ((half.new ≡ half.old) × (seat.new ≡ seat.old)) }
        ensures place { half.new.place ≡ half.old.place }
    {
        let (mut row, held) = self.rows.take(rt, site.number);
        if !row.is_done(site.life, writes) {
            self.rows.put(held, row);
            return Err(hand);
        }
        let closed = self.close_on(rt, site, &mut row, half, hand, seat);
        self.rows.put(held, row);
        Ok(closed)
    }

    /// Closes the session as `close` does, or, where it is to end once the row's thread has begun so many writes and the
    /// threads' halves are not lent, as `close_done` does, for which it then waits too.
    pub(crate) fn close_by<R: Wait>(
        &self,
        rt: &R,
        asked: ToClose,
        half: &mut Right<P, Agreed<'a>>,
        stands: &mut Stands<'a, P>,
        hand: Hand,
        seat: &mut PoolSeat,
    ) -> (Batch, Marks)
        requires row { asked.site.number < P.rows }
        requires can { IsClosable P.rows asked.site half.old hand seat.old }
        ensures closes { Closes P.events P.writes half.old.value hand result.0.chain result.0.last result.1
            seat.old seat.new }
        ensures to { ForSome stands.old (λ index. result.1.to ≡ index) }
        ensures ends { stands.old ≡ None → ForSome asked.ends (λ writes. result.1.to ≡ writes) }
        ensures half { half.new.value ≡ Some agreed.Nothing }
        ensures place { half.new.place ≡ half.old.place }
        ensures stands { stands.new ≡ stands.old }
    {
        let Some(writes) = asked.ends else {
            return self.close(rt, asked.site, half, stands, hand, seat);
        };
        if stands.are_here() {
            return self.close(rt, asked.site, half, stands, hand, seat);
        }
        let mut hand = hand;
        for _ in rt.forever() {
            hand = match self.close_done(rt, asked.site, writes, half, hand, seat) {
                Ok(closed) => return closed,
                Err(back) => back,
            };
            thread::yield_now();
        }
        unreachable!()
    }

    /// Takes all that is pending in a slot of the row with this number, with the session's hand and its half of the tie. It
    /// waits for the buffer alone, and takes no memory.
    pub fn steal<R: Wait>(
        &self,
        rt: &R,
        number: usize,
        slot: u32,
        half: &mut Right<P, Agreed<'a>>,
        hand: &mut Hand,
    ) -> Batch
        requires row { number < P.rows }
        requires slot { slot < SESSIONS }
        requires place { half.old.place ≡ hand_place P.rows (buffer_number number slot) }
        requires hand { hand_in half.old.value ≡ Some hand.old }
        ensures takes { TakesWith P.events P.writes half.old.value half.new.value hand.old hand.new
            result.chain result.last }
        ensures place { half.new.place ≡ half.old.place }
    {
        let (mut buffer, held) = self.buffers.take(rt, buffer_at(number, slot));
        let batch = buffer.steal(&self.ties, half, hand);
        self.buffers.put(held, buffer);
        batch
    }
}

// With the slot's bit where its session refused the write.
fn with_answer(refused: u64, slot: u32, shown: Shown) -> u64
    requires within { slot < SESSIONS }
    requires unset { bit_at refused slot ≡ 0 }
    ensures { (s : ℕ) → s < SESSIONS → bit_at result s ≡ (if s == slot then one_if (is_refused shown) else bit_at refused s) }
{
    match shown {
        Shown::Written { .. } => refused,
        Shown::Refused { .. } => refused | (1 << slot),
    }
}

// The number of a buffer, by its row and slot.
fn buffer_at(number: usize, slot: u32) -> usize
    requires few { number < 2 ^ 32 }
    requires slot { slot < SESSIONS }
    ensures { result ≡ buffer_number number slot }
{
    number * SESSIONS + slot as usize
}
