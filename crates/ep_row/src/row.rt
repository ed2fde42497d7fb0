//! A thread's row.
ghost use Rattle.std.specs.Prelude.{◌≡◌, ℕ, ◌+◌, ◌^◌, ◌<◌, ◌≤◌, true, false, length, All, IfOk, IfSome, OnOk, OnErr, IsTrue, IsNone, is_some, ◌↔◌, if◌then◌else◌, Some, None, slice_set};
ghost use Rattle.std.specs.Int.{bit_at};
ghost use Rattle.ep_defs.specs.Session as valid;
ghost use Rattle.ep_defs.specs.declared.session.Write.{Write as WriteValue};
ghost use Rattle.ep_model.specs.Budget.{needs_chunk, record_size};
ghost use Rattle.ep_slot.specs.Chain.{records_of, HasRecords};
ghost use Rattle.ep_slot.specs.Asked.{IsAsked};
ghost use Rattle.ep_slot.specs.Slot.{IsKept, opened, shown_slot, with_steal, marks_of, number_of, is_refused};
ghost use Rattle.ep_slot.specs.Hand.{Agrees};
ghost use Rattle.ep_row.specs.Bits.{SetsBits, ClearsBit};
ghost use Rattle.ep_row.specs.Row.{shown_once, gets, is_admitted};

use crate::bits::with_bit;
use ep_defs::limits::{SESSIONS, WRITES};
use ep_defs::{Config, EventDef, Marks, Write, admits};
use ep_pool::Purse;
use ep_slot::{Batch, Hand, Shown, Slot, pair};
use std::alloc::{AllocError, Global};
use std::marker::Model;

/// What a row knows of a session that is open on it.
#[derive(Clone, Copy, Debug, PartialEq, Eq)]
pub struct Opening {
    pub session: u64,
    /// How many writes the thread had begun when the session was opened on it.
    pub from: u32,
    /// The session's budget, in chunks.
    pub chunks: u32,
    /// How many writes were shown to it.
    pub shown: u32,
}

/// What a thread needs to write: the sessions that are open on it, and the masks of its program's events.
#[derive(Debug, Drop)]
pub struct Row {
    thread: u64,
    index: u32,
    in_write: bool,
    left: bool,
    stamp: u64,
    due: u64,
    masks: Vec<u64>,
    slots: Vec<Option<Opening>>,
}

impl Model for Row {
    ghost use Rattle.std.specs.Prelude.{◌≡◌, ◌<◌, ◌^◌, length, vec_len};
    ghost use Rattle.ep_row.specs.Row.{RowState};

    ghost Value = { RowState };

    ghost view = { λ r. record { thread = r.thread; index = r.index; in_write = r.in_write; left = r.left; stamp = r.stamp; due = r.due; masks = r.masks.items; slots = r.slots.items } };

    ghost invariant = { λ r. vec_len r.slots ≡ 64 };
}

impl Row {
    ghost use Rattle.ep_row.specs.Row.{new_row, slot_of, mask_of, opening_of, HasOpen, with_begin};
    ghost use Rattle.ep_row.specs.AtRest.{IsUnwanted, KeepsRest, KeepsRestWith, KeepsRestOpened, KeepsRestAdmitted, KeepsRestAnew, KeepsSlotRest, KeepsStolenRest, RestsAnew};

    /// The row of a thread that has made no write, in a program of this many events.
    pub fn new(alloc: Global, thread: u64, events: u32) -> Result<Row, AllocError>
        ensures row { IfOk result (λ row. row ≡ new_row thread events) }
        ensures rest { IfOk result RestsAnew }
    {
        let masks = vec![in alloc; 0u64; events as usize]?;
        let slots = Vec::from_slice(alloc, &[None; SESSIONS])?;
        Ok(Row {
            thread,
            index: 0,
            in_write: false,
            left: false,
            stamp: 0,
            due: 0,
            masks,
            slots,
        })
    }

    /// The thread that the row serves.
    pub fn thread(&self) -> u64
        ensures { result ≡ self.now.thread }
    {
        self.thread
    }

    /// How many writes the thread has begun.
    pub fn index(&self) -> u32
        ensures { result ≡ self.now.index }
    {
        self.index
    }

    /// A bit for each slot that has not seen the last write yet.
    pub fn due(&self) -> u64
        ensures { result ≡ self.now.due }
    {
        self.due
    }

    /// The lowest slot that has not seen the last write yet.
    #[tactic(auto, using(crate::proofs::Masks::lowest))]
    pub fn next_due(&self) -> Option<u32>
        ensures none { IsNone result ↔ (self.now.due ≡ 0) }
        ensures within { IfSome result (λ slot. slot < SESSIONS) }
        ensures due { IfSome result (λ slot. bit_at self.now.due slot ≡ 1) }
        ensures lowest { IfSome result (λ slot. (s : ℕ) → s < slot → bit_at self.now.due s ≡ 0) }
    {
        if self.due == 0 {
            None
        } else {
            Some(self.due.trailing_zeros())
        }
    }

    /// Whether the thread is between a begin and its end.
    pub fn in_write(&self) -> bool
        ensures { result ≡ self.now.in_write }
    {
        self.in_write
    }

    /// Whether the thread makes no more writes.
    pub fn left(&self) -> bool
        ensures { result ≡ self.now.left }
    {
        self.left
    }

    /// Whether a session is open in the slot.
    pub fn is_on(&self, slot: u32) -> bool
        requires { slot < SESSIONS }
        ensures { result ≡ is_some (slot_of self.now slot) }
    {
        self.slots[slot as usize].is_some()
    }

    /// Opens a session in a free slot, and gives its slot and hand. Out of memory, the row stays as it was.
    pub fn open_on(
        &mut self,
        alloc: Global,
        slot: u32,
        session: u64,
        config: &Config,
        events: &[EventDef],
    ) -> Result<(Slot, Hand), AllocError>
        requires within { slot < SESSIONS }
        requires off { IsNone (slot_of self.old slot) }
        requires quiet { self.old.in_write ≡ false }
        requires stays { self.old.left ≡ false }
        requires events { length events.now ≡ length self.old.masks }
        ensures made { IfOk result (λ made. made.0 ≡ opened session self.old.thread self.old.index config.now.chunks) }
        ensures agree { IfOk result (λ made. Agrees made.0 made.1) }
        ensures open { IfOk result (λ made. HasOpen self.new slot made.0) }
        ensures slots { IfOk result (λ made. self.new.slots
            ≡ slice_set self.old.slots slot (Some (opening_of made.0))) }
        ensures masks { OnOk result (SetsBits slot (gets events.now config.now) self.old.masks self.new.masks) }
        ensures others { OnOk result (self.new ≡ record self.old { masks = self.new.masks; slots = self.new.slots }) }
        ensures rest { OnOk result (KeepsRestOpened events.now slot config.now self.old self.new) }
        ensures err { OnErr result (self.new ≡ self.old) }
    {
        let made = pair(alloc, session, self.thread, self.index, config.chunks)?;
        set_masks(self.masks.as_mut_slice(), slot, config, events);
        self.slots[slot as usize] = Some(Opening {
            session,
            from: self.index,
            chunks: config.chunks,
            shown: 0,
        });
        Ok(made)
    }

    /// The same where what the session gets was found before: for each event whether it does. So no rule is read, and the
    /// row's lock is held for a look at each event alone.
    pub fn open_admitted(
        &mut self,
        alloc: Global,
        slot: u32,
        session: u64,
        chunks: u32,
        admitted: &[bool],
    ) -> Result<(Slot, Hand), AllocError>
        requires within { slot < SESSIONS }
        requires off { IsNone (slot_of self.old slot) }
        requires quiet { self.old.in_write ≡ false }
        requires stays { self.old.left ≡ false }
        requires events { length admitted.now ≡ length self.old.masks }
        ensures made { IfOk result (λ made. made.0 ≡ opened session self.old.thread self.old.index chunks) }
        ensures agree { IfOk result (λ made. Agrees made.0 made.1) }
        ensures open { IfOk result (λ made. HasOpen self.new slot made.0) }
        ensures slots { IfOk result (λ made. self.new.slots
            ≡ slice_set self.old.slots slot (Some (opening_of made.0))) }
        ensures masks { OnOk result (SetsBits slot (is_admitted admitted.now) self.old.masks self.new.masks) }
        ensures others { OnOk result (self.new ≡ record self.old { masks = self.new.masks; slots = self.new.slots }) }
        ensures rest { OnOk result (KeepsRestAdmitted admitted.now slot self.old self.new) }
        ensures err { OnErr result (self.new ≡ self.old) }
    {
        let made = pair(alloc, session, self.thread, self.index, chunks)?;
        set_admitted(self.masks.as_mut_slice(), slot, admitted);
        self.slots[slot as usize] = Some(Opening {
            session,
            from: self.index,
            chunks,
            shown: 0,
        });
        Ok(made)
    }

    /// Shows the write that was begun to a session that is due. The slot keeps it, or refuses it where its record needs a
    /// chunk and the pool was found dry.
    pub fn show<P: Purse>(
        &mut self,
        slot: u32,
        buffer: &mut Slot,
        pool: &mut P,
        write: &Write,
    ) -> Shown
        requires within { slot < SESSIONS }
        requires due { bit_at self.old.due slot ≡ 1 }
        requires open { HasOpen self.old slot buffer.old }
        requires fits { IsTrue (valid.fits write.now) }
        requires few { buffer.old.used < WRITES }
        requires total { P.total pool.old ≡ buffer.old.chunks }
        requires can_take { P.can_take pool.old }
        ensures number { number_of result ≡ buffer.old.used + 1 }
        ensures slot { buffer.new ≡ shown_slot (is_refused result) buffer.old self.old.stamp write.now }
        ensures refused { IsTrue (is_refused result)
            ↔ (IsTrue (needs_chunk buffer.old.pending (record_size write.now)) × P.dry pool.old pool.new) }
        ensures purse { IsAsked P.got P.dry (needs_chunk buffer.old.pending (record_size write.now)) (is_refused result) pool.old pool.new }
        ensures open { HasOpen self.new slot buffer.new }
        ensures slots { self.new.slots ≡ slice_set self.old.slots slot (Some (opening_of buffer.new)) }
        ensures due { ClearsBit slot self.old.due self.new.due }
        ensures bounded { self.new.due < 2 ^ 64 }
        ensures others { self.new ≡ record self.old { due = self.new.due; slots = self.new.slots } }
        ensures rest { KeepsRest self.old self.new }
        ensures numbered { KeepsSlotRest self.old slot write.now buffer.old buffer.new }
    {
        let shown = buffer.show(pool, self.stamp, write);
        self.due = with_bit(self.due, slot, false);
        raise(&mut self.slots[slot as usize]);
        shown
    }

    /// Closes a session, and gives what was pending and what the session had of the thread.
    pub fn close_on(&mut self, slot: u32, buffer: Slot, hand: Hand) -> (Batch, Marks)
        requires within { slot < SESSIONS }
        requires open { HasOpen self.old slot buffer }
        requires quiet { self.old.in_write ≡ false }
        requires agree { Agrees buffer hand }
        ensures records { records_of result.0.chain ≡ buffer.records }
        ensures chunks { length result.0.chain ≡ buffer.pending.chunks }
        ensures filled { All HasRecords result.0.chain }
        ensures last { result.0.last ≡ buffer.used }
        ensures marks { result.1 ≡ marks_of buffer self.old.index }
        ensures kept { IsKept buffer }
        ensures slots { self.new.slots ≡ slice_set self.old.slots slot None }
        ensures masks { SetsBits slot (λ _. false) self.old.masks self.new.masks }
        ensures others { self.new ≡ record self.old { masks = self.new.masks; slots = self.new.slots } }
        ensures rest { KeepsRest self.old self.new }
    {
        clear_masks(self.masks.as_mut_slice(), slot);
        self.slots[slot as usize] = None;
        buffer.close(hand, self.index)
    }

    /// Whether no session is open on the row.
    pub fn is_free(&self) -> bool
        ensures { IsTrue result ↔ All IsNone self.now.slots }
    {
        self.slots.iter().all(|slot| slot.is_none())
    }

    /// Whether no session that is open gets this event. It looks at one mask.
    #[inline(always)]
    pub fn is_unwanted(&self, event: u32) -> bool
        requires some { 0 < event }
        requires events { event ≤ length self.now.masks }
        ensures { IsTrue result ↔ (mask_of self.now event ≡ 0) }
    {
        self.masks[event as usize - 1] == 0
    }

    /// Takes by a write that no session gets: it is one of the thread's writes, and nothing else of the row changes. So
    /// nothing of it is read but, before, its event.
    #[inline(always)]
    pub fn pass_over(&mut self)
        requires quiet { self.old.in_write ≡ false }
        requires stays { self.old.left ≡ false }
        requires few { self.old.index < WRITES }
        ensures row { self.new ≡ record self.old { index = self.old.index + 1 } }
        ensures rest { (write : WriteValue) → IsUnwanted write self.old → KeepsRestWith write self.old self.new }
    {
        self.index += 1;
    }

    /// Begins a write, and answers a bit for each slot whose session gets it. It looks at one mask.
    pub fn begin(&mut self, stamp: u64, write: &Write) -> u64
        requires quiet { self.old.in_write ≡ false }
        requires stays { self.old.left ≡ false }
        requires event { 0 < write.now.event }
        requires events { write.now.event ≤ length self.old.masks }
        requires fits { IsTrue (valid.fits write.now) }
        requires few { self.old.index < WRITES }
        ensures due { result ≡ mask_of self.old write.now.event }
        ensures row { self.new ≡ with_begin self.old stamp write.now }
        ensures rest { KeepsRestWith write.now self.old self.new }
    {
        self.index += 1;
        self.in_write = true;
        self.stamp = stamp;
        self.due = self.masks[write.event as usize - 1];
        self.due
    }

    /// Ends a write that every session saw that gets it.
    pub fn end(&mut self)
        requires in_write { self.old.in_write ≡ true }
        requires seen { self.old.due ≡ 0 }
        ensures row { self.new ≡ record self.old { in_write = false } }
        ensures rest { KeepsRest self.old self.new }
    {
        self.in_write = false;
    }

    /// The thread makes no more writes.
    pub fn leave(&mut self)
        requires quiet { self.old.in_write ≡ false }
        requires stays { self.old.left ≡ false }
        ensures row { self.new ≡ record self.old { left = true } }
        ensures rest { KeepsRest self.old self.new }
    {
        self.left = true;
    }

    /// Another thread takes the row, on which no session is open.
    pub fn enter(&mut self, thread: u64)
        requires left { self.old.left ≡ true }
        requires off { All IsNone self.old.slots }
        ensures row { self.new ≡ record self.old { thread = thread; index = 0; left = false } }
        ensures rest { KeepsRestAnew self.old self.new }
    {
        self.thread = thread;
        self.index = 0;
        self.left = false;
    }

    /// Takes all records that are pending in a slot. It may stand inside a write.
    pub fn steal(buffer: &mut Slot, hand: &mut Hand) -> Batch
        requires { Agrees buffer.old hand.old }
        ensures records { records_of result.chain ≡ buffer.old.records }
        ensures chunks { length result.chain ≡ buffer.old.pending.chunks }
        ensures filled { All HasRecords result.chain }
        ensures last { result.last ≡ buffer.old.used }
        ensures slot { buffer.new ≡ with_steal buffer.old }
        ensures agree { Agrees buffer.new hand.new }
        ensures kept { IsKept buffer.old }
        ensures numbered { KeepsStolenRest buffer.old buffer.new (records_of result.chain) }
    {
        buffer.steal(hand)
    }
}

// Counts one number more in a slot.
fn raise(slot: &mut Option<Opening>)
    requires { IfSome slot.old (λ opening. opening.shown < WRITES) }
    ensures { slot.new ≡ shown_once slot.old }
{
    if let Some(opening) = slot {
        opening.shown += 1;
    }
}

// Gives each event's mask the slot's bit as the session gets the event.
fn set_masks(masks: &mut [u64], slot: u32, config: &Config, events: &[EventDef])
    requires within { slot < SESSIONS }
    requires events { length events.now ≡ length masks.old }
    ensures { SetsBits slot (gets events.now config.now) masks.old masks.new }
{
    for (place, def) in events.iter().enumerate() {
        masks[place] = with_bit(masks[place], slot, admits(config, def));
    }
}

// The same where it is known of each event whether the session gets it.
fn set_admitted(masks: &mut [u64], slot: u32, admitted: &[bool])
    requires within { slot < SESSIONS }
    requires events { length admitted.now ≡ length masks.old }
    ensures { SetsBits slot (is_admitted admitted.now) masks.old masks.new }
{
    for (place, gets) in admitted.iter().enumerate() {
        masks[place] = with_bit(masks[place], slot, *gets);
    }
}

// Takes the slot's bit from each event's mask.
fn clear_masks(masks: &mut [u64], slot: u32)
    requires { slot < SESSIONS }
    ensures { SetsBits slot (λ _. false) masks.old masks.new }
{
    for mask in masks.iter_mut() {
        *mask = with_bit(*mask, slot, false);
    }
}
