//! What a session has of the rows: its chunks, and a slot on each row where it is open.
ghost use Rattle.std.specs.Prelude.{◌≡◌, ◌==◌, ℕ, ◌+◌, ◌-◌, ◌^◌, ◌<◌, ◌≤◌, ◌↔◌, [], None, Some, if◌then◌else◌, is_some, IsSome, IsNone, option_map, length, min, vec_len, slice_index_or, slice_set, All, IfOk, OnOk, IsTrue};
ghost use Rattle.std.specs.Int.{bit_at};
ghost use Rattle.std.specs.Option.{ForSome};
ghost use Rattle.ep_defs.specs.declared.limits.TheConstants.{THREADS};
ghost use Rattle.ep_defs.specs.Session as valid;
ghost use Rattle.ep_model.specs.Budget.{needs_chunk, chunks_begun, record_size};
ghost use Rattle.ep_slot.specs.Chain.{records_of, HasRecords};
ghost use Rattle.ep_slot.specs.Slot.{IsKept, with_record, with_refusal, with_steal, number_of, is_refused};
ghost use Rattle.ep_slot.specs.Hand.{hand_of};
ghost use Rattle.ep_row.specs.Bits.{ClearsBit};
ghost use Rattle.ep_row.specs.Row.{HasOpen, opening_of};
ghost use Rattle.ep_row.specs.AtRest.{KeepsRest, KeepsSlotRest, KeepsStolenRest};
ghost use Rattle.ep_rows.specs.Cells.{cell_at, chunks_in, pending_chunks};
ghost use Rattle.ep_rows.specs.Shows.{CanShow, ShownIn, StolenIn};

use crate::opened::Open;
use ep_chunk::Chain;
use ep_defs::Write;
use ep_defs::limits::{SESSIONS, WRITES};
use ep_pool::{OwnPool, Purse};
use ep_row::Row;
use ep_slot::{Batch, Hand, Shown};
use std::alloc::{AllocError, Global};
use std::mem;

/// The chunks of a session and its slots, from row 1 on. A column without a session has neither.
#[derive(Drop)]
pub(crate) struct Column {
    pool: OwnPool,
    cells: Vec<Option<Open>>,
    // What is pending was taken from the pool.
    ghost held: { pending_chunks cells.items + pool.free ≤ pool.total },
    ghost few: { vec_len cells ≤ THREADS },
}

impl Column {
    /// The column of a session that is open nowhere, with this many chunks.
    pub(crate) fn new(alloc: Global, chunks: u32) -> Result<Column, AllocError>
        ensures pool { IfOk result (λ column. column.pool ≡ record { total = chunks; free = chunks }) }
        ensures cells { IfOk result (λ column. column.cells.items ≡ []) }
    {
        Ok(Column {
            pool: OwnPool::new(alloc, chunks)?,
            cells: Vec::new(alloc),
        })
    }

    /// Makes the place of a row.
    pub(crate) fn reserve(&mut self, row: u32) -> Result<(), AllocError>
        requires { row ≤ THREADS }
        ensures len { OnOk result (row ≤ vec_len self.new.cells) }
        ensures cells { (r : ℕ) → cell_at self.new.cells.items r ≡ cell_at self.old.cells.items r }
        ensures chunks { pending_chunks self.new.cells.items ≡ pending_chunks self.old.cells.items }
        ensures pool { self.new.pool ≡ self.old.pool }
    {
        lengthen(&mut self.cells, row as usize)
    }

    /// Puts down what was just opened on a row.
    #[tactic(auto, using(crate::proofs::Cells::cell_at_is, crate::proofs::Cells::chunks_put))]
    pub(crate) fn put(&mut self, row: u32, one: Open)
        requires row { 0 < row }
        requires place { row ≤ vec_len self.old.cells }
        requires off { cell_at self.old.cells.items row ≡ None }
        requires empty { one.slot.pending.chunks ≡ 0 }
        ensures cells { (r : ℕ)
            → cell_at self.new.cells.items r ≡ (if r == row then Some one else cell_at self.old.cells.items r) }
        ensures pool { self.new.pool ≡ self.old.pool }
        ensures chunks { pending_chunks self.new.cells.items ≡ pending_chunks self.old.cells.items }
    {
        self.cells[row as usize - 1] = Some(one);
    }

    /// Shows the write of a row, which is due, to the session there.
    pub(crate) fn show(&mut self, number: u32, row: &mut Row, slot: u32, write: &Write) -> Shown
        requires number { 0 < number }
        requires within { slot < SESSIONS }
        requires due { bit_at row.old.due slot ≡ 1 }
        requires some { IsSome (cell_at self.old.cells.items number) }
        requires held { ForSome (cell_at self.old.cells.items number) (CanShow row.old slot self.old.pool) }
        requires fits { IsTrue (valid.fits write.now) }
        ensures shown { ShownIn slot write.now result row.old row.new self.old.pool self.new.pool (cell_at self.old.cells.items number) (cell_at self.new.cells.items number) }
        ensures others { (r : ℕ) → cell_at self.new.cells.items r
            ≡ (if r == number then cell_at self.new.cells.items number else cell_at self.old.cells.items r) }
        ensures bounded { row.new.due < 2 ^ 64 }
        ensures chunks { pending_chunks self.new.cells.items + self.new.pool.free
            ≡ pending_chunks self.old.cells.items + self.old.pool.free }
    {
        let place = number as usize - 1;
        show_in(&mut self.cells[place], &mut self.pool, row, slot, write)
    }

    /// Takes all that is pending of a row.
    pub(crate) fn steal(&mut self, number: u32, hand: &mut Hand) -> Batch
        requires number { 0 < number }
        requires agree { option_map (λ o. hand_of o.slot) (cell_at self.old.cells.items number) ≡ Some hand.old }
        ensures stolen { StolenIn hand.old hand.new result (cell_at self.old.cells.items number) (cell_at self.new.cells.items number) }
        ensures others { (r : ℕ) → cell_at self.new.cells.items r
            ≡ (if r == number then cell_at self.new.cells.items number else cell_at self.old.cells.items r) }
        ensures pool { self.new.pool ≡ self.old.pool }
        ensures chunks { pending_chunks self.new.cells.items + length result.chain
            ≡ pending_chunks self.old.cells.items }
    {
        steal_in(&mut self.cells[number as usize - 1], hand)
    }

    /// Takes out what is open on a row.
    pub(crate) fn take(&mut self, number: u32) -> Open
        requires number { 0 < number }
        requires some { IsSome (cell_at self.old.cells.items number) }
        ensures is { cell_at self.old.cells.items number ≡ Some result }
        ensures others { (r : ℕ)
            → cell_at self.new.cells.items r ≡ (if r == number then None else cell_at self.old.cells.items r) }
        ensures pool { self.new.pool ≡ self.old.pool }
        ensures chunks { pending_chunks self.new.cells.items + result.slot.pending.chunks
            ≡ pending_chunks self.old.cells.items }
    {
        match mem::replace(&mut self.cells[number as usize - 1], None) {
            Some(one) => one,
            None => unreachable!(),
        }
    }

    /// Gives chunks back to the session.
    pub(crate) fn give(&mut self, chain: Chain)
        requires { length chain + pending_chunks self.old.cells.items + self.old.pool.free ≤ self.old.pool.total }
        ensures pool { self.new.pool
            ≡ record self.old.pool { free = min self.old.pool.total (self.old.pool.free + length chain) } }
        ensures cells { self.new.cells ≡ self.old.cells }
    {
        self.pool.give(chain);
    }

    /// Whether the session is open nowhere.
    pub(crate) fn is_empty(&self) -> bool
        ensures { IsTrue result ↔ All IsNone self.now.cells.items }
    {
        self.cells.iter().all(|cell| cell.is_none())
    }
}

// Shows a write to what is open on a row.
fn show_in(
    cell: &mut Option<Open>,
    pool: &mut OwnPool,
    row: &mut Row,
    slot: u32,
    write: &Write,
) -> Shown
    requires within { slot < SESSIONS }
    requires due { bit_at row.old.due slot ≡ 1 }
    requires some { IsSome cell.old }
    requires held { ForSome cell.old (CanShow row.old slot pool.old) }
    requires fits { IsTrue (valid.fits write.now) }
    requires free { pool.old.free + chunks_in cell.old ≤ pool.old.total }
    ensures shown { ShownIn slot write.now result row.old row.new pool.old pool.new cell.old cell.new }
    ensures bounded { row.new.due < 2 ^ 64 }
{
    match cell {
        Some(one) => row.show(slot, &mut one.slot, pool, write),
        None => unreachable!(),
    }
}

// Takes all that is pending in what is open on a row.
fn steal_in(cell: &mut Option<Open>, hand: &mut Hand) -> Batch
    requires { option_map (λ o. hand_of o.slot) cell.old ≡ Some hand.old }
    ensures { StolenIn hand.old hand.new result cell.old cell.new }
{
    match cell {
        Some(one) => Row::steal(&mut one.slot, hand),
        None => unreachable!(),
    }
}

// Makes the list as long as this.
#[tactic(auto, using(crate::proofs::Cells::cell_at_longer, crate::proofs::Cells::chunks_longer))]
fn lengthen(cells: &mut Vec<Option<Open>>, len: usize) -> Result<(), AllocError>
    requires { len ≤ THREADS }
    ensures len { OnOk result (len ≤ vec_len cells.new) }
    ensures few { vec_len cells.old ≤ THREADS → vec_len cells.new ≤ THREADS }
    ensures cells { (r : ℕ) → cell_at cells.new.items r ≡ cell_at cells.old.items r }
    ensures chunks { pending_chunks cells.new.items ≡ pending_chunks cells.old.items }
{
    for place in cells.len()..len {
        cells.push(None)?;
    }
    Ok(())
}
