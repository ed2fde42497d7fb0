//! What the calls of a session do in its slot of a row.
ghost use Rattle.std.specs.Prelude.{◌≡◌, ◌==◌, ℕ, ◌+◌, ◌-◌, ◌^◌, ◌<◌, ◌≤◌, None, Some, false, if◌then◌else◌, length, min, option_map, All, IsNone, IsSome, IsTrue, IfOk, OnOk, OnErr};
ghost use Rattle.std.specs.Int.{bit_at};
ghost use Rattle.std.specs.Option.{ForSome};
ghost use Rattle.ep_defs.specs.declared.limits.TheConstants.{THREADS as ROWS};
ghost use Rattle.ep_defs.specs.Session as valid;
ghost use Rattle.ep_slot.specs.Chain.{records_of, HasRecords};
ghost use Rattle.ep_slot.specs.Hand.{hand_of};
ghost use Rattle.ep_slot.specs.Slot.{opened, marks_of};
ghost use Rattle.ep_row.specs.Row.{HasOpen, slot_of};
ghost use Rattle.ep_stream.specs.Rows.{first_hand};
ghost use Rattle.ep_stream.specs.Steps.{OpensRow, ClosesRow, IsAllOf};
ghost use Rattle.ep_rows.specs.Told.{cell_in, pool_in, pending_in, HasPlace, opened_with};
ghost use Rattle.ep_rows.specs.Shows.{CanShow, ShownIn, StolenIn, ClosedIn};

use crate::column::Column;
use crate::opened::Open;
use ep_chunk::Chain;
use ep_defs::limits::{SESSIONS, THREADS};
use ep_defs::{Config, Duplicate, EventDef, Marks, Write};
use ep_row::Row;
use ep_slot::{Batch, Hand, Shown};
use std::alloc::{AllocError, Global};

// Makes the place of a row, in a column that has no chunks where there was none.
fn reserve(alloc: Global, column: &mut Option<Column>, number: u32) -> Result<(), AllocError>
    requires { number ≤ THREADS }
    ensures place { OnOk result (HasPlace number column.new) }
    ensures cells { (r : ℕ) → cell_in column.new r ≡ cell_in column.old r }
    ensures pool { pool_in column.new ≡ pool_in column.old }
    ensures chunks { pending_in column.new ≡ pending_in column.old }
{
    if column.is_none() {
        *column = Some(Column::new(alloc, 0)?);
    }
    match column {
        Some(column) => column.reserve(number),
        None => unreachable!(),
    }
}

// Puts down what was just opened on a row, for which there is a place.
fn put(column: &mut Option<Column>, number: u32, one: Open)
    requires number { 0 < number }
    requires place { HasPlace number column.old }
    requires off { cell_in column.old number ≡ None }
    requires empty { one.slot.pending.chunks ≡ 0 }
    ensures cells { (r : ℕ)
        → cell_in column.new r ≡ (if r == number then Some one else cell_in column.old r) }
    ensures pool { pool_in column.new ≡ pool_in column.old }
    ensures chunks { pending_in column.new ≡ pending_in column.old }
{
    match column {
        Some(column) => column.put(number, one),
        None => unreachable!(),
    }
}

/// A session that is to be opened, and in which slot.
#[derive(Drop)]
pub(crate) struct ToOpen<'c> {
    pub(crate) slot: u32,
    pub(crate) session: u64,
    pub(crate) config: &'c Config,
}

/// Opens a session on a row, where it is not open.
pub(crate) fn attach(
    alloc: Global,
    column: &mut Option<Column>,
    row: &mut Row,
    number: u32,
    asked: &ToOpen<'_>,
    events: &[EventDef],
) -> Result<Hand, AllocError>
    requires number { 0 < number }
    requires most { number ≤ THREADS }
    requires within { asked.now.slot < SESSIONS }
    requires off { IsNone (slot_of row.old asked.now.slot) }
    requires quiet { row.old.in_write ≡ false }
    requires stays { row.old.left ≡ false }
    requires events { length events.now ≡ length row.old.masks }
    requires none { cell_in column.old number ≡ None }
    ensures hand { IfOk result (λ hand. hand ≡ first_hand asked.now.session row.old.thread row.old.index) }
    ensures opens { OnOk result (OpensRow events.now asked.now.slot asked.now.session asked.now.config.now
        row.old row.new) }
    ensures known { OnOk result (HasOpen row.new asked.now.slot
        (opened asked.now.session row.old.thread row.old.index asked.now.config.now.chunks)) }
    ensures cells { OnOk result ((r : ℕ) → cell_in column.new r
        ≡ (if r == number then Some (opened_with asked.now.session row.old asked.now.config.now)
        else cell_in column.old r)) }
    ensures same { OnErr result ((r : ℕ) → cell_in column.new r ≡ cell_in column.old r) }
    ensures row { OnErr result (row.new ≡ row.old) }
    ensures pool { pool_in column.new ≡ pool_in column.old }
    ensures chunks { pending_in column.new ≡ pending_in column.old }
{
    let copy = asked.config.copy(alloc)?;
    reserve(alloc, column, number)?;
    let (made, hand) = row.open_on(alloc, asked.slot, asked.session, asked.config, events)?;
    let one = Open {
        slot: made,
        config: copy,
    };
    put(column, number, one);
    Ok(hand)
}

/// Takes all that is pending of a row.
pub(crate) fn steal(column: &mut Option<Column>, number: u32, hand: &mut Hand) -> Batch
    requires number { 0 < number }
    requires agree { option_map (λ o. hand_of o.slot) (cell_in column.old number) ≡ Some hand.old }
    ensures stolen { StolenIn hand.old hand.new result (cell_in column.old number) (cell_in column.new number) }
    ensures others { (r : ℕ)
        → cell_in column.new r ≡ (if r == number then cell_in column.new number else cell_in column.old r) }
    ensures pool { pool_in column.new ≡ pool_in column.old }
    ensures chunks { pending_in column.new + length result.chain ≡ pending_in column.old }
{
    match column {
        Some(column) => column.steal(number, hand),
        None => unreachable!(),
    }
}

/// Closes a session on a row.
pub(crate) fn detach(
    column: &mut Option<Column>,
    row: &mut Row,
    number: u32,
    slot: u32,
    hand: Hand,
) -> (Batch, Marks)
    requires number { 0 < number }
    requires within { slot < SESSIONS }
    requires agree { option_map (λ o. hand_of o.slot) (cell_in column.old number) ≡ Some hand }
    requires known { ForSome (cell_in column.old number) (λ o. HasOpen row.old slot o.slot) }
    requires quiet { row.old.in_write ≡ false }
    ensures closed { ClosedIn hand result.0 result.1 row.old (cell_in column.old number) }
    ensures closes { ClosesRow slot row.old row.new }
    ensures others { (r : ℕ) → cell_in column.new r ≡ (if r == number then None else cell_in column.old r) }
    ensures pool { pool_in column.new ≡ pool_in column.old }
    ensures chunks { pending_in column.new + length result.0.chain ≡ pending_in column.old }
{
    let one = match column {
        Some(column) => column.take(number),
        None => unreachable!(),
    };
    row.close_on(slot, one.slot, hand)
}

/// Gives chunks back to the session, which took them before.
pub(crate) fn give(column: &mut Option<Column>, chain: Chain)
    requires { length chain ≤ (pool_in column.old).total - (pool_in column.old).free - pending_in column.old }
    ensures pool { pool_in column.new
        ≡ record (pool_in column.old) { free = min (pool_in column.old).total ((pool_in column.old).free + length chain) } }
    ensures cells { (r : ℕ) → cell_in column.new r ≡ cell_in column.old r }
    ensures chunks { pending_in column.new ≡ pending_in column.old }
{
    if let Some(column) = column {
        column.give(chain);
    }
}

/// Shows the write of a row, which is due, to the session that is open there.
pub(crate) fn show(
    column: &mut Option<Column>,
    row: &mut Row,
    number: u32,
    slot: u32,
    write: &Write,
) -> Shown
    requires number { 0 < number }
    requires within { slot < SESSIONS }
    requires due { bit_at row.old.due slot ≡ 1 }
    requires some { IsSome (cell_in column.old number) }
    requires held { ForSome (cell_in column.old number) (CanShow row.old slot (pool_in column.old)) }
    requires fits { IsTrue (valid.fits write.now) }
    ensures shown { ShownIn slot write.now result row.old row.new (pool_in column.old) (pool_in column.new) (cell_in column.old number) (cell_in column.new number) }
    ensures others { (r : ℕ)
        → cell_in column.new r ≡ (if r == number then cell_in column.new number else cell_in column.old r) }
    ensures bounded { row.new.due < 2 ^ 64 }
    ensures chunks { pending_in column.new + (pool_in column.new).free
        ≡ pending_in column.old + (pool_in column.old).free }
{
    match column {
        Some(column) => column.show(number, row, slot, write),
        None => unreachable!(),
    }
}
