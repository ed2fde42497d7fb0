//! The rows of a program's threads.
ghost use Rattle.std.specs.Prelude.{◌≡◌, ℕ, ◌+◌, ◌^◌, ◌<◌, ◌≤◌, ◌↔◌, ◌==◌, true, false, None, Some, is_some, slice_index_or, length, vec_len, All, IfOk, IfNone, IfSome, OnOk, OnErr, IsTrue, IsNone, IsSome};
ghost use Rattle.std.specs.Int.{bit_at};
ghost use Rattle.std.specs.Option.{ForSome};
ghost use Rattle.ep_defs.specs.declared.limits.TheConstants.{EVENTS, SESSIONS as SLOTS, THREADS as ROWS, WRITES as MOST_WRITES};
ghost use Rattle.ep_defs.specs.Session as valid;
ghost use Rattle.ep_row.specs.Row.{new_row, slot_of};
ghost use Rattle.ep_row.specs.AtRest.{RestsAnew};
ghost use Rattle.ep_stream.specs.Rows.{IsRow};
ghost use Rattle.ep_rows.specs.Told.{row_at, open_at, no_chunks, IsKnown, AreWritten};

use crate::column::Column;
use crate::places;
use ep_defs::limits::{SESSIONS, THREADS, WRITES};
use ep_defs::{EventDef, Write};
use ep_row::Row;
use ep_slot::Shown;
use std::alloc::{AllocError, Global};

/// The rows of a program's threads, each with a slot for each session, and the sessions' chunks.
///
/// Rows are numbered from 1 to `limits::THREADS`, slots from 0, events from 1 in the order of their definitions.
#[derive(Drop)]
pub struct Rows {
    pub(crate) events: Vec<EventDef>,
    pub(crate) rows: Vec<Row>,
    // One for each slot with a session.
    pub(crate) columns: Vec<Option<Column>>,
    ghost row_count: { vec_len rows ≡ ROWS },
    ghost column_count: { vec_len columns ≡ SLOTS },
    ghost few: { length events.items ≤ EVENTS },
    ghost masks: { (r : ℕ) → IsRow ROWS r → length (row_at rows.items r).masks ≡ length events.items },
    ghost known: { (r s : ℕ) → IsKnown (row_at rows.items r) s (open_at columns.items r s) },
    ghost written: { (r s : ℕ) → AreWritten events.items (open_at columns.items r s) },
}

impl Rows {
    ghost use Rattle.ep_rows.specs.Rows.{told_of, definitions_of, AreFresh, KeepsOpen, ClearsSlot};
    ghost use Rattle.ep_rows.specs.Writes.{Begins, Ends, Leaves, Enters, Shows, SetsPool};

    /// The rows of threads 1 to `limits::THREADS`, which have made no write.
    pub fn new(alloc: Global, events: Vec<EventDef>) -> Result<Rows, AllocError>
        requires { length events.items ≤ EVENTS }
        ensures fresh { IfOk result (λ rows. AreFresh (length events.items) (told_of rows)) }
        ensures definitions { IfOk result (λ rows. definitions_of rows ≡ events.items) }
    {
        let rows = new_rows(alloc, events.len() as u32)?;
        let columns = new_columns(alloc)?;
        Ok(Rows {
            events,
            rows,
            columns,
        })
    }

    /// The thread that the row serves.
    pub fn thread(&self, row: u32) -> u64
        requires { IsRow ROWS row }
        ensures { result ≡ ((told_of self.now).row row).thread }
    {
        self.row(row).thread()
    }

    /// Whether its thread is between a begin and its end.
    pub fn in_write(&self, row: u32) -> bool
        requires { IsRow ROWS row }
        ensures { result ≡ ((told_of self.now).row row).in_write }
    {
        self.row(row).in_write()
    }

    /// Whether its thread makes no more writes.
    pub fn left(&self, row: u32) -> bool
        requires { IsRow ROWS row }
        ensures { result ≡ ((told_of self.now).row row).left }
    {
        self.row(row).left()
    }

    /// A bit for each slot that has not seen the last write yet.
    pub fn due(&self, row: u32) -> u64
        requires { IsRow ROWS row }
        ensures { result ≡ ((told_of self.now).row row).due }
    {
        self.row(row).due()
    }

    /// Whether a session is open in the slot.
    pub fn is_on(&self, row: u32, slot: u32) -> bool
        requires row { IsRow ROWS row }
        requires slot { slot < SESSIONS }
        ensures { result ≡ is_some (slot_of ((told_of self.now).row row) slot) }
    {
        self.row(row).is_on(slot)
    }

    /// Whether the session in the slot is open on no row.
    pub fn is_on_nowhere(&self, slot: u32) -> bool
        requires { slot < SESSIONS }
        ensures { IsTrue result ↔ ((r : ℕ) → (told_of self.now).slot r slot ≡ None) }
    {
        match &self.columns[slot as usize] {
            Some(column) => column.is_empty(),
            None => true,
        }
    }

    /// The lowest row that another thread can take: its own has left, and no session is open on it.
    pub fn free_row(&self) -> Option<u32>
        ensures row { IfSome result (λ row. IsRow ROWS row) }
        ensures left { IfSome result (λ row. ((told_of self.now).row row).left ≡ true) }
        ensures off { IfSome result (λ row. All IsNone ((told_of self.now).row row).slots) }
        ensures none { IfNone result ((r : ℕ) → IsRow ROWS r
            → ((told_of self.now).row r).left ≡ true
            → All IsNone ((told_of self.now).row r).slots → ⊥) }
    {
        let place = self
            .rows
            .iter()
            .position(|row| row.left() && row.is_free())?;
        Some(place as u32 + 1)
    }

    // The row with a number.
    #[tactic(auto, using(crate::proofs::OneRow::row_at_is))]
    fn row(&self, row: u32) -> &Row
        requires { IsRow ROWS row }
        ensures { result.now ≡ row_at self.now.rows.items row }
    {
        &self.rows[row as usize - 1]
    }

    /// Gives a session the slot, where none is, with this many chunks. Out of memory it has none.
    pub fn seat(&mut self, alloc: Global, slot: u32, chunks: u32) -> Result<(), AllocError>
        requires slot { slot < SESSIONS }
        requires off { (r : ℕ) → (told_of self.old).slot r slot ≡ None }
        ensures seated { OnOk result (SetsPool slot (record {
          total = chunks;
          free = chunks;
        }) (told_of self.old) (told_of self.new)) }
        ensures cleared { OnOk result (ClearsSlot slot self.old self.new) }
        ensures err { OnErr result (self.new ≡ self.old) }
        ensures definitions { definitions_of self.new ≡ definitions_of self.old }
    {
        self.columns[slot as usize] = Some(Column::new(alloc, chunks)?);
        Ok(())
    }

    /// Takes the slot and its chunks from a session that is open nowhere.
    pub fn unseat(&mut self, slot: u32)
        requires slot { slot < SESSIONS }
        requires off { (r : ℕ) → (told_of self.old).slot r slot ≡ None }
        ensures unseated { SetsPool slot no_chunks (told_of self.old) (told_of self.new) }
        ensures cleared { ClearsSlot slot self.old self.new }
        ensures definitions { definitions_of self.new ≡ definitions_of self.old }
    {
        self.columns[slot as usize] = None;
    }

    /// Begins a write of a row's thread.
    pub fn begin(&mut self, row: u32, stamp: u64, write: &Write)
        requires row { IsRow ROWS row }
        requires quiet { ((told_of self.old).row row).in_write ≡ false }
        requires stays { ((told_of self.old).row row).left ≡ false }
        requires event { 0 < write.now.event }
        requires events { write.now.event ≤ length (definitions_of self.old) }
        requires fits { IsTrue (valid.fits write.now) }
        requires few { ((told_of self.old).row row).index < WRITES }
        ensures begins { Begins row stamp write.now (told_of self.old) (told_of self.new) }
        ensures bounded { ((told_of self.new).row row).due < 2 ^ 64 }
        ensures kept { KeepsOpen self.old self.new }
        ensures definitions { definitions_of self.new ≡ definitions_of self.old }
    {
        self.rows[row as usize - 1].begin(stamp, write);
    }

    /// Ends the write of a row's thread, which every session saw that gets it.
    pub fn end(&mut self, row: u32)
        requires row { IsRow ROWS row }
        requires in_write { ((told_of self.old).row row).in_write ≡ true }
        requires seen { ((told_of self.old).row row).due ≡ 0 }
        ensures ends { Ends row (told_of self.old) (told_of self.new) }
        ensures kept { KeepsOpen self.old self.new }
        ensures definitions { definitions_of self.new ≡ definitions_of self.old }
    {
        self.rows[row as usize - 1].end();
    }

    /// A row's thread makes no more writes.
    pub fn leave(&mut self, row: u32)
        requires row { IsRow ROWS row }
        requires quiet { ((told_of self.old).row row).in_write ≡ false }
        requires stays { ((told_of self.old).row row).left ≡ false }
        ensures leaves { Leaves row (told_of self.old) (told_of self.new) }
        ensures kept { KeepsOpen self.old self.new }
        ensures definitions { definitions_of self.new ≡ definitions_of self.old }
    {
        self.rows[row as usize - 1].leave();
    }

    /// Another thread takes a free row.
    pub fn enter(&mut self, row: u32, thread: u64)
        requires row { IsRow ROWS row }
        requires left { ((told_of self.old).row row).left ≡ true }
        requires off { All IsNone ((told_of self.old).row row).slots }
        ensures enters { Enters row thread (told_of self.old) (told_of self.new) }
        ensures kept { KeepsOpen self.old self.new }
        ensures definitions { definitions_of self.new ≡ definitions_of self.old }
    {
        self.rows[row as usize - 1].enter(thread);
    }

    /// Shows the write of a row's thread to a session that is due. Its slot keeps or refuses it. It takes no memory.
    pub fn show(&mut self, row: u32, slot: u32, write: &Write) -> Shown
        requires row { IsRow ROWS row }
        requires slot { slot < SESSIONS }
        requires due { bit_at ((told_of self.old).row row).due slot ≡ 1 }
        requires some { IsSome ((told_of self.old).slot row slot) }
        requires few { ForSome ((told_of self.old).slot row slot) (λ buffer. buffer.used < WRITES) }
        requires total { ForSome ((told_of self.old).slot row slot) (λ buffer. ((told_of self.old).pool slot).total
            ≡ buffer.chunks) }
        requires event { 0 < write.now.event }
        requires events { write.now.event ≤ length (definitions_of self.old) }
        requires fits { IsTrue (valid.fits write.now) }
        ensures shows { Shows row slot write.now result (told_of self.old) (told_of self.new) }
        ensures bounded { ((told_of self.new).row row).due < 2 ^ 64 }
        ensures kept { KeepsOpen self.old self.new }
        ensures definitions { definitions_of self.new ≡ definitions_of self.old }
    {
        places::show(
            &mut self.columns[slot as usize],
            &mut self.rows[row as usize - 1],
            row,
            slot,
            write,
        )
    }
}

// The rows of threads 1 to `limits::THREADS`, in a program of this many events.
fn new_rows(alloc: Global, events: u32) -> Result<Vec<Row>, AllocError>
    ensures count { IfOk result (λ rows. length rows.items ≡ ROWS) }
    ensures rows { IfOk result (λ rows. (r : ℕ) → IsRow ROWS r → row_at rows.items r ≡ new_row r events) }
    ensures rest { IfOk result (λ rows. (r : ℕ) → IsRow ROWS r → RestsAnew (row_at rows.items r)) }
{
    let mut rows = Vec::with_capacity(alloc, THREADS as usize)?;
    for number in 0..THREADS {
        rows.push(Row::new(alloc, u64::from(number) + 1, events)?)?;
    }
    Ok(rows)
}

// The slots without sessions.
fn new_columns(alloc: Global) -> Result<Vec<Option<Column>>, AllocError>
    ensures count { IfOk result (λ columns. length columns.items ≡ SLOTS) }
    ensures none { IfOk result (λ columns. (s : ℕ) → slice_index_or columns.items s None ≡ None) }
{
    let mut columns = Vec::with_capacity(alloc, SESSIONS)?;
    for _slot in 0..SESSIONS {
        columns.push(None)?;
    }
    Ok(columns)
}
