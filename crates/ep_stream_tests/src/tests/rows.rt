//! Rows in a list.
ghost use Rattle.std.specs.Prelude.{◌≡◌, ℕ, ◌+◌, ◌-◌, ◌<◌, ◌≤◌, List, [], ◌∷◌, None, Some, IfOk, IsTrue, All, length, option_map, slice_index_or, vec_len};
ghost use Rattle.std.specs.List.{sum_by};
ghost use Rattle.std.specs.Option.{is_some, option_map_or};
ghost use Rattle.ep_defs.specs.declared.event.EventDef.{EventDef as EventValue};
ghost use Rattle.ep_defs.specs.Session as valid;
ghost use Rattle.ep_row.specs.AtRest.{write_of};
ghost use Rattle.ep_slot.specs.Chain.{records_of, HasRecords};
ghost use Rattle.ep_slot.specs.Hand.{hand_of, Agrees};
ghost use Rattle.ep_slot.specs.Slot.{opened};
ghost use Rattle.ep_stream_tests.specs.OneSlot.{AreNumbered};
ghost use Rattle.ep_stream.specs.Rows.{hand_after, IsBatch, IsMarked, IsSame};

use ep_defs::limits::WRITES;
use ep_defs::{Config, Duplicate, Marks, Write};
use ep_pool::{OwnPool, Purse};
use ep_slot::{Batch, Hand, Shown, Slot, pair};
use ep_stream::RowSet;
use std::alloc::{AllocError, Global};
use std::mem;

/// The one slot that the rows have.
pub(super) const SLOT: u32 = 3;

/// How many rows there are.
pub(super) const ROWS: u32 = 2;

/// What is open on a row.
#[derive(Drop)]
pub(super) struct Open {
    slot: Slot,
    config: Config,
    // The program has one event.
    ghost written: { All (λ r. (r.event ≡ 1) × IsTrue (valid.fits (write_of r))) slot.records },
}

/// The rows of threads 1 and 2 of a program with one event, each with one slot.
#[derive(Drop)]
pub(super) struct ListedRows {
    // At their numbers; nothing is open at 0.
    cells: Vec<Option<Open>>,
    pool: OwnPool,
    // How many more times it refuses the memory to open a session.
    refusals: u32,
    ghost count: { vec_len cells ≡ 3 },
    ghost first: { slice_index_or cells.items 0 None ≡ None },
    ghost threads: { AreNumbered (λ o. o.slot.thread) cells.items },
    // What is pending was taken from the pool.
    ghost held: { sum_by (λ cell. option_map_or (λ o. o.slot.pending.chunks) cell 0) cells.items + pool.free ≤ pool.total },
}

impl ListedRows {
    /// Rows on which nothing is open, with so many chunks.
    pub(super) fn new(alloc: Global, chunks: u32, refusals: u32) -> Result<ListedRows, AllocError>
        ensures cells { IfOk result (λ set. set.cells.items ≡ None ∷ None ∷ None ∷ []) }
        ensures pool { IfOk result (λ set. set.pool ≡ record { total = chunks; free = chunks }) }
    {
        Ok(ListedRows {
            cells: Vec::from_array(alloc, [None, None, None])?,
            pool: OwnPool::new(alloc, chunks)?,
            refusals,
        })
    }

    /// How many chunks are free.
    pub(super) fn free(&self) -> u32 {
        self.pool.free()
    }

    /// Whether a session is open on the row.
    pub(super) fn is_open(&self, row: u32) -> bool
        ensures { result ≡ is_some (slice_index_or self.now.cells.items row None) }
    {
        match self.cells.get(row as usize) {
            Some(cell) => cell.is_some(),
            None => false,
        }
    }

    /// Shows a write of the event to the session on a row, and answers whether its record is kept.
    pub(super) fn write(&mut self, row: u32, stamp: u64, write: &Write) -> bool
        requires row { 0 < row }
        requires most { row ≤ ROWS }
        requires event { write.now.event ≡ 1 }
        ensures expected { IsSame (⟦<ListedRows as RowSet>⟧.expected self.old) (⟦<ListedRows as RowSet>⟧.expected self.new) }
        ensures configured { IsSame (⟦<ListedRows as RowSet>⟧.configured self.old) (⟦<ListedRows as RowSet>⟧.configured self.new) }
        ensures out { (slot : ℕ) → ⟦<ListedRows as RowSet>⟧.out self.new slot ≡ ⟦<ListedRows as RowSet>⟧.out self.old slot }
    {
        show_in(&mut self.cells[row as usize], &mut self.pool, stamp, write)
    }
}

impl RowSet for ListedRows {
    ghost use Rattle.std.specs.Prelude.{◌≡◌, ◌-◌, [], ◌∷◌, None};
    ghost use Rattle.std.specs.List.{sum_by};
    ghost use Rattle.std.specs.Option.{option_map_or};
    ghost use Rattle.ep_slot.specs.Hand.{hand_of};
    ghost use Rattle.nt_write.specs.Vectors.{event_e};
    ghost use Rattle.ep_stream_tests.specs.OneSlot.{at_slot, counted_at, none_there};

    ghost count = { λ _. 2 };

    ghost rows = { λ _. None };

    ghost definitions = { λ _. event_e ∷ [] };

    ghost can_attach = { λ _ slot _. slot ≡ 3 };

    ghost configured = { λ set. at_slot (λ o. o.config) set.cells.items };

    ghost expected = { λ set. at_slot (λ o. hand_of o.slot) set.cells.items };

    ghost out = { λ set. counted_at (set.pool.total - set.pool.free - sum_by (λ cell. option_map_or (λ o. o.slot.pending.chunks) cell 0) set.cells.items) };

    ghost tests_record = { λ _ _ _ _ _ _. Unit {0} };

    ghost tests_hand = { λ _ row hand. hand.thread ≡ row };

    ghost tests_marks = { λ _ _ _. Unit {0} };

    ghost refused = { λ _. None };

    fn threads(&self) -> u32 {
        ROWS
    }

    fn attach(
        &mut self,
        alloc: Global,
        row: u32,
        _slot: u32,
        session: u64,
        config: &Config,
    ) -> Result<Hand, AllocError> {
        let chunks = self.pool.total();
        let (open, hand) = open_on(alloc, &mut self.refusals, session, row, chunks, config)?;
        self.cells[row as usize] = Some(open);
        Ok(hand)
    }

    fn steal(&mut self, row: u32, _slot: u32, hand: &mut Hand) -> Batch {
        steal_in(&mut self.cells[row as usize], hand)
    }

    fn detach(&mut self, row: u32, _slot: u32, hand: Hand) -> (Batch, Marks) {
        close_in(&mut self.cells[row as usize], hand)
    }

    fn give(&mut self, _slot: u32, batch: Batch) {
        self.pool.give(batch.chain);
    }

    ghost use Rattle.std.proofs.Common.{◌∙◌, sym};

    ghost none_outside = { λ set row slot none. none_there (λ o. hand_of o.slot) set.cells.items row slot (sym set.cells.ok.0 ∙ set.count) set.first none };
}

// Opens a session on a thread that has made no write, unless its memory is to be refused once more.
fn open_on(
    alloc: Global,
    refusals: &mut u32,
    session: u64,
    thread: u32,
    chunks: u32,
    config: &Config,
) -> Result<(Open, Hand), AllocError>
    ensures slot { IfOk result (λ made. made.0.slot ≡ opened session thread 0 chunks) }
    ensures config { IfOk result (λ made. made.0.config ≡ config.now) }
    ensures agree { IfOk result (λ made. Agrees made.0.slot made.1) }
{
    if *refusals > 0 {
        *refusals -= 1;
        return Err(AllocError);
    }
    let config = config.copy(alloc)?;
    let (slot, hand) = pair(alloc, session, u64::from(thread), 0, chunks)?;
    Ok((Open { slot, config }, hand))
}

// Shows a write to what is open, if it can be shown. Answers whether its record is kept.
fn show_in(cell: &mut Option<Open>, pool: &mut OwnPool, stamp: u64, write: &Write) -> bool
    requires { write.now.event ≡ 1 }
    ensures hand { option_map (λ o. hand_of o.slot) cell.new ≡ option_map (λ o. hand_of o.slot) cell.old }
    ensures config { option_map (λ o. o.config) cell.new ≡ option_map (λ o. o.config) cell.old }
    ensures total { pool.new.total ≡ pool.old.total }
    ensures chunks { option_map_or (λ o. o.slot.pending.chunks) cell.new 0 + pool.new.free
        ≡ option_map_or (λ o. o.slot.pending.chunks) cell.old 0 + pool.old.free }
{
    let Some(open) = cell else {
        return false;
    };
    let can_show = write.fits() && open.slot.counts().used < WRITES;
    if !can_show || pool.total() != open.slot.chunks() {
        return false;
    }
    matches!(open.slot.show(pool, stamp, write), Shown::Written { .. })
}

// Takes all that is pending.
fn steal_in(cell: &mut Option<Open>, hand: &mut Hand) -> Batch
    requires { option_map (λ o. hand_of o.slot) cell.old ≡ Some hand.old }
    ensures hand { hand.new ≡ hand_after hand.old (length (records_of result.chain)) result.last (length result.chain) }
    ensures batch { (events : List EventValue) → 0 < length events → IsBatch events hand.old (records_of result.chain) result.last }
    ensures filled { All HasRecords result.chain }
    ensures agree { option_map (λ o. hand_of o.slot) cell.new ≡ Some hand.new }
    ensures config { option_map (λ o. o.config) cell.new ≡ option_map (λ o. o.config) cell.old }
    ensures taken { length result.chain ≡ option_map_or (λ o. o.slot.pending.chunks) cell.old 0 }
    ensures none { option_map_or (λ o. o.slot.pending.chunks) cell.new 0 ≡ 0 }
{
    match cell {
        Some(open) => open.slot.steal(hand),
        None => unreachable!(),
    }
}

// Takes out what is open, with all that is pending.
fn close_in(cell: &mut Option<Open>, hand: Hand) -> (Batch, Marks)
    requires { option_map (λ o. hand_of o.slot) cell.old ≡ Some hand }
    ensures batch { (events : List EventValue) → 0 < length events → IsBatch events hand (records_of result.0.chain) result.0.last }
    ensures filled { All HasRecords result.0.chain }
    ensures marks { IsMarked hand (records_of result.0.chain) result.0.last result.1 }
    ensures taken { length result.0.chain ≡ option_map_or (λ o. o.slot.pending.chunks) cell.old 0 }
    ensures none { cell.new ≡ None }
{
    match mem::replace(cell, None) {
        Some(open) => {
            let to = open.slot.counts().used;
            open.slot.close(hand, to)
        }
        None => unreachable!(),
    }
}
