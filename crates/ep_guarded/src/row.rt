//! A row with its halves of ties.
ghost use Rattle.std.specs.Prelude.{◌≡◌, ◌⊎◌, ◌+◌, ◌-◌, ◌^◌, ◌<◌, ◌≤◌, ◌↔◌, ℕ, false, true, length, option_map, take, slice_get, vec_len, All, Some, None, IsNone, IfSome, IfOk, OnErr, IsSome, IsTrue, Err};
ghost use Rattle.std.specs.Int.{bit_at};
ghost use Rattle.std.specs.Option.{ForSome};
ghost use Rattle.ep_defs.specs.Session as valid;
ghost use Rattle.ep_row.specs.Bits.{ClearsBit};
ghost use Rattle.ep_row.specs.Row.{mask_of, new_row, with_begin};
ghost use Rattle.ep_tie.specs.Tied.{Tied};
ghost use Rattle.ep_guarded.specs.declared.agreed.Agreed.{Agreed as AgreedValue};
ghost use Rattle.ep_guarded.specs.declared.agreed.Agreed.TheVariants as agreed;
ghost use Rattle.ep_guarded.specs.declared.row.NotOpened.TheVariants as not_opened;
ghost use Rattle.ep_guarded.specs.Tied.{stand_in, left_in, next_stand, thread_of, buffer_number, buffer_place, AnswersShow, ChangesOpenings, IsAway, IsDone, IsNextOf};
ghost use Rattle.ep_guarded.specs.Sessions.{Opens, Closes, IsOpenable, IsClosable};

use crate::agreed::{Agreed, Stand};
use crate::buffer::TiedBuffer;
use crate::kept::{close, open};
use crate::program::Program;
use crate::site::{Site, ToOpen};
use ep_defs::limits::{SESSIONS, WRITES};
use ep_defs::{Marks, Write};
use ep_pool::PoolSeat;
use ep_row::Row;
use ep_slot::{Batch, Hand, Shown};
use ep_tie::{Left, Right, Ties};
use std::alloc::{AllocError, Global};
use std::marker::Model;
use std::sync::Wait;

/// Why a session was not opened on a row.
#[derive(Clone, Copy, Debug, PartialEq, Eq)]
pub enum NotOpened {
    /// The row has left, or serves another life.
    Away,
    OutOfMemory,
}

impl From<AllocError> for NotOpened {
    ghost from_gives = { λ _ why. why ≡ not_opened.OutOfMemory };

    fn from(_error: AllocError) -> NotOpened {
        NotOpened::OutOfMemory
    }
}

/// A thread's row with its halves of ties, as it stands under its lock. The threads that it serves in a run come one after
/// another, each in a life of the row's. Contracts see its number, its life, both from 0, and the row.
#[derive(Drop)]
pub struct TiedRow<'a, P: Program> {
    row: Row,
    life: u32,
    // By slot.
    buffers: Vec<Left<P, Agreed<'a>>>,
    writer: Left<P, Agreed<'a>>,
}

impl<'a, P: Program> Model for TiedRow<'a, P> {
    ghost use Rattle.ep_guarded.specs.Tied.{TiedRowState};
    ghost use Rattle.ep_guarded.specs.Resting.{RowRests};

    ghost Value = { TiedRowState };

    ghost view = { λ r. record { number = r.writer.place; life = r.life; row = r.row } };

    ghost invariant = { λ r. RowRests P.rows P.events P.writes r.life r.row r.buffers.items r.writer };
}

impl<'a, P: Program> TiedRow<'a, P> {
    /// The row with this number, from 0, in a program of so many events, with its halves of the ties to its buffers, by
    /// slot, and of that to its thread. Its thread, from 1, has made no write, and no session is open on it.
    pub fn new(
        alloc: Global,
        number: u32,
        events: u32,
        buffers: Vec<Left<P, Agreed<'a>>>,
        writer: Left<P, Agreed<'a>>,
    ) -> Result<TiedRow<'a, P>, AllocError>
        requires events { events ≡ length P.events }
        requires number { writer.place ≡ number }
        requires count { vec_len buffers ≡ SESSIONS }
        requires places { (s : ℕ) (half : Tied AgreedValue) → slice_get buffers.items s ≡ Some half → half.place ≡ buffer_place P.rows (buffer_number number s) }
        requires nothing { (s : ℕ) (half : Tied AgreedValue) → slice_get buffers.items s ≡ Some half → half.value ≡ Some agreed.Nothing }
        requires stands { writer.value ≡ Some (agreed.Stand (record { thread = number + 1; index = 0 })) }
        ensures row { IfOk result (λ made. made ≡ record { number = number; life = 0; row = new_row (number + 1) events }) }
    {
        let row = Row::new(alloc, u64::from(number) + 1, events)?;
        Ok(TiedRow {
            row,
            life: 0,
            buffers,
            writer,
        })
    }

    /// Begins the next write of the row's thread, which has its half of the tie, and answers a bit for each slot whose session
    /// gets it. It takes no memory.
    pub fn begin(
        &mut self,
        ties: &Ties<P, Agreed<'a>>,
        half: &mut Right<P, Agreed<'a>>,
        stamp: u64,
        write: &Write,
    ) -> u64
        requires place { half.old.place ≡ self.old.number }
        requires here { IsSome (stand_in half.old.value) }
        requires quiet { self.old.row.in_write ≡ false }
        requires few { ForSome (stand_in half.old.value) (λ s. s.index < WRITES) }
        requires next { ForSome (stand_in half.old.value) (λ s. slice_get (P.writes s.thread) s.index ≡ Some write.now) }
        requires some { 0 < write.now.event }
        requires event { write.now.event ≤ length P.events }
        requires fits { IsTrue (valid.fits write.now) }
        ensures due { result ≡ mask_of self.old.row write.now.event }
        ensures row { self.new.row ≡ with_begin self.old.row stamp write.now }
        ensures number { (self.new.number ≡ self.old.number) × (self.new.life ≡ self.old.life) }
        ensures write { slice_get (P.writes self.old.row.thread) self.old.row.index ≡ Some write.now }
        ensures stood { half.old.value ≡ Some (agreed.Stand (record { thread = self.old.row.thread; index = self.old.row.index })) }
        ensures stands { half.new.value ≡ Some (agreed.Stand (record { thread = self.new.row.thread; index = self.new.row.index })) }
        ensures place { half.new.place ≡ half.old.place }
    {
        let next = Agreed::Stand(Stand {
            thread: self.row.thread(),
            index: self.row.index() + 1,
        });
        self.writer.set(ties, half, &next);
        self.row.begin(stamp, write)
    }

    /// Takes by the next write of the row's thread, which has its half of the tie, where no session that is open gets its
    /// event, and answers whether it did. Then it is one of the thread's writes, and nothing else changes; elsewhere all
    /// stays as it was. It looks at one mask, and at nothing of the write but its event. It takes no memory.
    #[inline(always)]
    pub fn pass_over(
        &mut self,
        ties: &Ties<P, Agreed<'a>>,
        half: &mut Right<P, Agreed<'a>>,
        event: u32,
    ) -> bool
        requires place { half.old.place ≡ self.old.number }
        requires here { IsSome (stand_in half.old.value) }
        requires quiet { self.old.row.in_write ≡ false }
        requires few { ForSome (stand_in half.old.value) (λ s. s.index < WRITES) }
        requires next { ForSome (stand_in half.old.value) (λ s. IsNextOf event (P.writes s.thread) s.index) }
        requires some { 0 < event }
        requires event { event ≤ length P.events }
        ensures unwanted { IsTrue result ↔ (mask_of self.old.row event ≡ 0) }
        ensures row { result ≡ true → self.new ≡ record self.old { row = record self.old.row { index = self.old.row.index + 1 } } }
        ensures stood { result ≡ true → half.old.value ≡ Some (agreed.Stand (record { thread = self.old.row.thread; index = self.old.row.index })) }
        ensures stands { result ≡ true → half.new.value ≡ Some (agreed.Stand (record { thread = self.old.row.thread; index = self.old.row.index + 1 })) }
        ensures stays { result ≡ false → (self.new ≡ self.old) × (half.new ≡ half.old) }
        ensures place { half.new.place ≡ half.old.place }
    {
        if self.row.is_unwanted(event) {
            let next = Agreed::Stand(Stand {
                thread: self.row.thread(),
                index: self.row.index() + 1,
            });
            self.writer.set(ties, half, &next);
            self.row.pass_over();
            true
        } else {
            false
        }
    }

    /// How far the row's thread has come, by the thread's half of the tie. It changes nothing, takes no memory and waits
    /// for nobody.
    pub fn stands(&mut self, ties: &Ties<P, Agreed<'a>>, half: &mut Right<P, Agreed<'a>>) -> Stand
        requires place { half.old.place ≡ self.old.number }
        requires here { IsSome (stand_in half.old.value) }
        ensures stand { result ≡ record { thread = self.old.row.thread; index = self.old.row.index } }
        ensures stands { stand_in half.old.value ≡ Some (record { thread = self.old.row.thread; index = self.old.row.index }) }
        ensures same { (self.new ≡ self.old) × (half.new ≡ half.old) }
    {
        self.writer.meet(ties, half);
        Stand {
            thread: self.row.thread(),
            index: self.row.index(),
        }
    }

    /// The lowest slot that has not seen the last write yet.
    pub fn next_due(&self) -> Option<u32>
        ensures none { IsNone result ↔ (self.now.row.due ≡ 0) }
        ensures within { IfSome result (λ slot. slot < SESSIONS) }
        ensures due { IfSome result (λ slot. bit_at self.now.row.due slot ≡ 1) }
        ensures lowest { IfSome result (λ slot. (s : ℕ) → s < slot → bit_at self.now.row.due s ≡ 0) }
    {
        self.row.next_due()
    }

    /// Shows the write that was begun to a session that is due, whose buffer is lent. Its record has the next number and
    /// the stamp of the begin. It is refused exactly where it needs a chunk and the session's pool was found dry, which the
    /// buffer's seat counts. It takes no memory, and may wait for the session's pool.
    pub fn show<R: Wait>(
        &mut self,
        rt: &R,
        ties: &Ties<P, Agreed<'a>>,
        slot: u32,
        buffer: &mut TiedBuffer<'a, P>,
        write: &Write,
    ) -> Shown
        requires within { slot < SESSIONS }
        requires due { bit_at self.old.row.due slot ≡ 1 }
        requires begun { 0 < self.old.row.index }
        requires last { slice_get (P.writes self.old.row.thread) (self.old.row.index - 1) ≡ Some write.now }
        requires place { buffer.old.place ≡ buffer_place P.rows (buffer_number self.old.number slot) }
        requires fits { IsTrue (valid.fits write.now) }
        ensures answer { AnswersShow slot write.now result self.old.row self.new.row buffer.old.kept buffer.new.kept }
        ensures due { ClearsBit slot self.old.row.due self.new.row.due }
        ensures bounded { self.new.row.due < 2 ^ 64 }
        ensures others { self.new.row ≡ record self.old.row { due = self.new.row.due; slots = self.new.row.slots } }
        ensures number { (self.new.number ≡ self.old.number) × (self.new.life ≡ self.old.life) }
        ensures place { buffer.new.place ≡ buffer.old.place }
    {
        buffer.show(
            rt,
            ties,
            &mut self.buffers[slot as usize],
            &mut self.row,
            slot,
            write,
        )
    }

    /// Ends a write that every session saw that gets it.
    pub fn end(&mut self)
        requires in_write { self.old.row.in_write ≡ true }
        requires seen { self.old.row.due ≡ 0 }
        ensures row { self.new.row ≡ record self.old.row { in_write = false } }
        ensures number { (self.new.number ≡ self.old.number) × (self.new.life ≡ self.old.life) }
    {
        self.row.end();
    }

    /// How many writes the row's thread has begun.
    pub fn index(&self) -> u32
        ensures { result ≡ self.now.row.index }
    {
        self.row.index()
    }

    /// The row's life, from 0.
    pub fn life(&self) -> u32
        ensures life { result ≡ self.now.life }
        ensures thread { self.now.row.thread ≡ thread_of P.rows self.now.number self.now.life }
    {
        self.life
    }

    /// Whether the thread that the row serves makes no more writes.
    pub fn has_left(&self) -> bool
        ensures { result ≡ self.now.row.left }
    {
        self.row.left()
    }

    /// A bit for each slot in which a session is open.
    pub fn on(&self) -> u64 {
        let mut on = 0;
        for slot in 0..SESSIONS as u32 {
            if self.row.is_on(slot) {
                on |= 1 << slot;
            }
        }
        on
    }

    /// The thread, which has made all its writes and has its half of the tie, leaves the row.
    pub fn leave(&mut self, ties: &Ties<P, Agreed<'a>>, half: &mut Right<P, Agreed<'a>>)
        requires place { half.old.place ≡ self.old.number }
        requires here { IsSome (stand_in half.old.value) }
        requires quiet { self.old.row.in_write ≡ false }
        requires all { ForSome (stand_in half.old.value) (λ s. s.index ≡ length (P.writes s.thread)) }
        ensures row { self.new ≡ record self.old { row = record self.old.row { left = true } } }
        ensures half { left_in half.new.value ≡ stand_in half.old.value }
        ensures place { half.new.place ≡ half.old.place }
    {
        let left = Agreed::Left(Stand {
            thread: self.row.thread(),
            index: self.row.index(),
        });
        self.writer.set(ties, half, &left);
        self.row.leave();
    }

    /// The next thread enters the row, which the one before has left, unless a session is still open on it. There are so
    /// many rows.
    pub fn enter(
        &mut self,
        ties: &Ties<P, Agreed<'a>>,
        half: &mut Right<P, Agreed<'a>>,
        rows: u32,
    ) -> bool
        requires place { half.old.place ≡ self.old.number }
        requires left { IsSome (left_in half.old.value) }
        requires rows { (rows ≡ P.rows) × (0 < P.rows) }
        requires few { ForSome (left_in half.old.value) (λ s. s.thread + P.rows < 2 ^ 32) }
        ensures free { IsTrue result ↔ All IsNone self.old.row.slots }
        ensures row { result ≡ true → self.new ≡ record self.old {
          life = self.old.life + 1;
          row = record self.old.row { thread = self.old.row.thread + P.rows; index = 0; left = false };
        } }
        ensures half { result ≡ true → stand_in half.new.value ≡ option_map (next_stand P.rows) (left_in half.old.value) }
        ensures stays { result ≡ false → (self.new ≡ self.old) × (half.new ≡ half.old) }
        ensures place { half.new.place ≡ half.old.place }
    {
        Left::meet(&mut self.writer, ties, half);
        if !self.row.is_free() {
            return false;
        }
        let thread = self.row.thread() + u64::from(rows);
        let first = Agreed::Stand(Stand { thread, index: 0 });
        self.writer.set(ties, half, &first);
        self.row.enter(thread);
        self.life += 1;
        true
    }

    /// Whether the row serves this life, and its thread has begun so many writes.
    pub fn is_done(&self, life: u32, writes: u32) -> bool
        ensures done { IsTrue result ↔ IsDone life writes self.now }
        ensures thread { self.now.row.thread ≡ thread_of P.rows self.now.number self.now.life }
    {
        self.life == life && self.row.index() == writes
    }

    /// Opens a session in a slot whose buffer and whose hand's half are lent. Where the row has left or serves another life,
    /// and out of memory, all stays as it was.
    pub fn open(
        &mut self,
        alloc: Global,
        ties: &Ties<P, Agreed<'a>>,
        asked: &ToOpen<'a>,
        buffer: &mut TiedBuffer<'a, P>,
        half: &mut Right<P, Agreed<'a>>,
        seat: &mut PoolSeat,
    ) -> Result<Hand, NotOpened>
        requires row { asked.now.site.number ≡ self.old.number }
        requires quiet { self.old.row.in_write ≡ false }
        requires place { buffer.old.place ≡ buffer_place P.rows (buffer_number self.old.number asked.now.site.slot) }
        requires can { IsOpenable P.rows P.events asked.now.site asked.now.grant.now half.old seat.old }
        ensures away { (result ≡ Err not_opened.Away) ↔ IsAway asked.now.site.life self.old }
        ensures opens { IfOk result (λ hand. Opens asked.now.session
            (thread_of P.rows self.old.number asked.now.site.life) asked.now.grant.now hand
            half.new.value seat.old seat.new) }
        ensures from { IfOk result (λ hand. hand.from ≡ self.old.row.index) }
        ensures none { OnErr result ((half.new ≡ half.old) × (seat.new ≡ seat.old)) }
        ensures row { ChangesOpenings self.old self.new }
        ensures none_row { OnErr result (self.new ≡ self.old) }
        ensures places { (buffer.new.place ≡ buffer.old.place) × (half.new.place ≡ half.old.place) }
    {
        if self.row.left() || self.life != asked.site.life {
            return Err(NotOpened::Away);
        }
        let slot = asked.site.slot;
        buffer.meet(ties, &mut self.buffers[slot as usize], half);
        let (kept, hand) = open::<P>(alloc, &mut self.row, slot, asked.session, asked.grant, seat)?;
        buffer.put(ties, &mut self.buffers[slot as usize], half, kept, &hand);
        Ok(hand)
    }

    /// Closes the session of a hand, whose half is lent, and gives what was pending and what the session had of the row's
    /// thread. The seat of the session's pool gets the buffer's share back, with what was taken through it and how often it
    /// was found dry, which is how many writes the marks tell as refused. It takes no memory.
    pub fn close(
        &mut self,
        ties: &Ties<P, Agreed<'a>>,
        site: Site,
        buffer: &mut TiedBuffer<'a, P>,
        half: &mut Right<P, Agreed<'a>>,
        hand: Hand,
        seat: &mut PoolSeat,
    ) -> (Batch, Marks)
        requires row { site.number ≡ self.old.number }
        requires quiet { self.old.row.in_write ≡ false }
        requires place { buffer.old.place ≡ buffer_place P.rows (buffer_number self.old.number site.slot) }
        requires can { IsClosable P.rows site half.old hand seat.old }
        ensures closes { Closes P.events P.writes half.old.value hand result.0.chain result.0.last
            result.1 seat.old seat.new }
        ensures to { result.1.to ≡ self.old.row.index }
        ensures thread { hand.thread ≡ self.old.row.thread }
        ensures half { half.new.value ≡ Some agreed.Nothing }
        ensures row { ChangesOpenings self.old self.new }
        ensures places { (buffer.new.place ≡ buffer.old.place) × (half.new.place ≡ half.old.place) }
    {
        let kept = buffer.take(ties, &mut self.buffers[site.slot as usize], half);
        close::<P>(&mut self.row, site.slot, kept, hand, seat)
    }
}
