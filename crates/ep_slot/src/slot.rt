//! A session's slot on a thread.
ghost use Rattle.std.specs.Prelude.{◌≡◌, ◌+◌, ◌<◌, ◌≤◌, All, length, IfOk, IsTrue, ◌↔◌, if◌then◌else◌};
ghost use Rattle.ep_defs.specs.Session as valid;
ghost use Rattle.ep_model.specs.Budget.{needs_chunk, record_size};
ghost use Rattle.ep_slot.specs.Chain.{records_of, HasRecords};
ghost use Rattle.ep_slot.specs.Asked.{IsAsked};
ghost use Rattle.ep_slot.specs.Slot.{IsKept, opened, shown_slot, with_steal, marks_of, counts_of, number_of, is_refused};
ghost use Rattle.ep_slot.specs.Hand.{Agrees, hand_of};

use crate::hand::Hand;
use crate::keep::keep;
use crate::shown::{Batch, Counts, Shown};
use ep_chunk::{Chain, RecIn};
use ep_defs::limits::WRITES;
use ep_defs::{Marks, Write};
use ep_pool::Purse;
use std::alloc::{AllocError, Global};
use std::marker::Model;

/// What a session has of one thread.
#[derive(Debug, Drop)]
pub struct Slot {
    session: u64,
    thread: u64,
    from: u32,
    chunks: u32,
    used: u32,
    taken: u32,
    refused: u32,
    last: u32,
    stolen: u32,
    pending: u32,
    chain: Chain,
}

/// The slot of a session on a thread that has made this many writes, and its hand. The session has this many chunks.
pub fn pair(
    alloc: Global,
    session: u64,
    thread: u64,
    from: u32,
    chunks: u32,
) -> Result<(Slot, Hand), AllocError>
    ensures slot { IfOk result (λ made. made.0 ≡ opened session thread from chunks) }
    ensures agree { IfOk result (λ made. Agrees made.0 made.1) }
{
    let slot = Slot {
        session,
        thread,
        from,
        chunks,
        used: 0,
        taken: 0,
        refused: 0,
        last: 0,
        stolen: 0,
        pending: 0,
        chain: Chain::empty(alloc),
    };
    let hand = Hand {
        session,
        thread,
        from,
        taken: 0,
        last: 0,
        stolen: 0,
    };
    Ok((slot, hand))
}

impl Model for Slot {
    ghost use Rattle.ep_slot.specs.Slot.{SlotState};
    ghost use Rattle.ep_slot.specs.Chain.{records_of, pending_of};
    ghost use Rattle.ep_slot.specs.Held.{IsHeld};

    ghost Value = { SlotState };

    ghost view = { λ s. record { session = s.session; thread = s.thread; from = s.from; chunks = s.chunks; used = s.used; taken = s.taken; refused = s.refused; last = s.last; stolen = s.stolen; records = records_of s.chain; pending = pending_of s.chain } };

    ghost invariant = { λ s. IsHeld s.pending (record { session = s.session; thread = s.thread; from = s.from; chunks = s.chunks; used = s.used; taken = s.taken; refused = s.refused; last = s.last; stolen = s.stolen; records = records_of s.chain; pending = pending_of s.chain }) s.chain };
}

impl Slot {
    /// Shows a write to the session. Its record is kept in the last chunk or in one from the pool, which is asked only
    /// where the record needs a chunk. The write is refused exactly where the pool was asked and found dry. Both use the
    /// next number. It takes no memory.
    pub fn show<P: Purse>(&mut self, pool: &mut P, stamp: u64, write: &Write) -> Shown
        requires fits { IsTrue (valid.fits write.now) }
        requires few { self.old.used < WRITES }
        requires total { P.total pool.old ≡ self.old.chunks }
        requires can_take { P.can_take pool.old }
        ensures number { number_of result ≡ self.old.used + 1 }
        ensures used { self.new.used ≡ self.old.used + 1 }
        ensures hand { hand_of self.new ≡ hand_of self.old }
        ensures slot { self.new ≡ shown_slot (is_refused result) self.old stamp write.now }
        ensures refused { IsTrue (is_refused result)
            ↔ (IsTrue (needs_chunk self.old.pending (record_size write.now)) × P.dry pool.old pool.new) }
        ensures purse { IsAsked P.got P.dry (needs_chunk self.old.pending (record_size write.now)) (is_refused result) pool.old pool.new }
    {
        let number = self.used + 1;
        let rec = RecIn {
            event: write.event,
            number,
            thread: self.thread,
            stamp,
            activity: write.activity,
            related: write.related,
            frames: write.frames.as_slice(),
            payload: write.payload.as_slice(),
        };
        self.used = number;
        if keep(&mut self.chain, pool, &rec) {
            self.pending += 1;
            Shown::Written { number }
        } else {
            self.refused += 1;
            Shown::Refused { number }
        }
    }

    /// Takes all records that are pending, with the chunk that is not full yet. It takes no memory.
    pub fn steal(&mut self, hand: &mut Hand) -> Batch
        requires { Agrees self.old hand.old }
        ensures records { records_of result.chain ≡ self.old.records }
        ensures chunks { length result.chain ≡ self.old.pending.chunks }
        ensures filled { All HasRecords result.chain }
        ensures last { result.last ≡ self.old.used }
        ensures slot { self.new ≡ with_steal self.old }
        ensures agree { Agrees self.new hand.new }
        ensures kept { IsKept self.old }
    {
        self.taken += self.pending;
        self.pending = 0;
        self.last = self.used;
        self.stolen += self.chain.count();
        hand.taken = self.taken;
        hand.last = self.last;
        hand.stolen = self.stolen;
        Batch {
            chain: self.chain.take(),
            last: self.last,
        }
    }

    /// Takes all records that are pending, and says what the session had of the thread, which has made this many
    /// writes. It takes no memory.
    pub fn close(self, hand: Hand, to: u32) -> (Batch, Marks)
        requires { Agrees self hand }
        ensures records { records_of result.0.chain ≡ self.records }
        ensures chunks { length result.0.chain ≡ self.pending.chunks }
        ensures filled { All HasRecords result.0.chain }
        ensures last { result.0.last ≡ self.used }
        ensures marks { result.1 ≡ marks_of self to }
        ensures kept { IsKept self }
    {
        let mut slot = self;
        let mut hand = hand;
        let batch = slot.steal(&mut hand);
        let marks = Marks {
            thread: slot.thread,
            from: slot.from,
            to,
            taken: slot.taken,
            refused: slot.refused,
        };
        (batch, marks)
    }

    /// How many numbers were used, and what became of them.
    pub fn counts(&self) -> Counts
        ensures counts { result ≡ counts_of self.now }
        ensures kept { IsKept self.now }
    {
        Counts {
            used: self.used,
            taken: self.taken,
            refused: self.refused,
            pending: self.pending,
        }
    }

    /// The session's budget, in chunks.
    pub fn chunks(&self) -> u32
        ensures { result ≡ self.now.chunks }
    {
        self.chunks
    }
}
