//! The tables of sessions, threads and rows.
ghost use Rattle.std.specs.Prelude.{◌≡◌, ◌+◌, ◌<◌, ◌%◌, ℕ, Some, is_none, is_some, IfSome, IsTrue, map, slice_get, vec_len};
ghost use Rattle.std.specs.BTreeMap.{get};
ghost use Rattle.std.specs.Ordering.{nat_cmp};
ghost use Rattle.ep_defs.specs.Definitions.{definition_at};
ghost use Rattle.ep_defs.specs.declared.limits.TheConstants.{SESSIONS as SLOTS, THREADS as ROWS};
ghost use Rattle.ep_model.specs.History.{is_there};
ghost use Rattle.ep_stream.specs.Rows.{IsRow};
ghost use Rattle.ep_tables.specs.declared.judged.OnRow.{OnRow};
ghost use Rattle.ep_tables.specs.Falling.{falls};

mod judge;
mod sessions;
mod start;
mod threads;

use crate::judged::OnRow;
use ep_defs::EventDef;
use ep_defs::limits::THREADS;
use ep_rows::Rows;
use ep_stream::Session;
use ep_table::Table;
use pt_io::MemSink;
use std::collections::BTreeMap;

/// A session that is present.
#[derive(Drop)]
pub struct Present {
    number: u32,
    // Its slot on each row, from 0.
    slot: u32,
    session: Session<MemSink>,
    // The threads on which it was ever opened.
    opened: BTreeMap<u32, ()>,
    ghost within: { slot < SLOTS },
}

/// The sessions, threads and rows of a program.
#[derive(Drop)]
pub struct Tables {
    // The events that threads write, numbered from 1.
    events: Vec<EventDef>,
    rows: Rows,
    // The row that each thread was given when it came. Rows are numbered from 1.
    threads: BTreeMap<u32, u32>,
    // Some of these threads, each in the place that its number chooses, so that its row is found without the map. Where
    // several choose one place, it has the one that came last.
    near: Vec<OnRow>,
    // The sessions that are present, the newest first.
    present: Vec<Present>,
    // The slots that they hold.
    table: Table,
    // The number of the session that was accepted last, or 0.
    last_session: u32,
    // The number of the thread that came last, or `limits::THREADS`.
    last_thread: u32,
    // How many writes were begun.
    begins: u32,
    ghost given: { (thread row : ℕ) → get nat_cmp threads thread ≡ Some row → IsRow ROWS row },
    ghost places: { vec_len near ≡ ROWS },
    ghost known: { (place : ℕ) (on : OnRow) → slice_get near.items place ≡ Some on
        → (on.thread % ROWS ≡ place) × (get nat_cmp threads on.thread ≡ Some on.row) },
    ghost falling: { IsTrue (falls (last_session + 1) (map (λ present. present.number) present.items)) },
}

impl Tables {
    ghost use Rattle.ep_tables.specs.Judged.{Tells};
    ghost use Rattle.ep_tables.specs.Tables.{place_of, row_of};

    // The row that a thread was given when it came.
    #[inline(always)]
    fn row_given(&self, thread: u32) -> Option<u32>
        ensures { result ≡ get nat_cmp self.now.threads thread }
    {
        let near = self.near[near_place(thread)];
        if near.thread == thread {
            return Some(near.row);
        }
        self.row_in_map(thread)
    }

    // The same, looked up in the map, which few threads need.
    #[inline(never)]
    fn row_in_map(&self, thread: u32) -> Option<u32>
        ensures { result ≡ get nat_cmp self.now.threads thread }
    {
        self.threads.get(&thread).copied()
    }

    /// The row of a thread, until another thread takes it.
    #[inline(always)]
    pub fn row_of(&self, thread: u32) -> Option<u32>
        ensures own { result ≡ row_of self.now thread }
        ensures row { IfSome result (IsRow ROWS) }
    {
        let row = self.row_given(thread)?;
        if self.rows.thread(row) == u64::from(thread) {
            Some(row)
        } else {
            None
        }
    }

    // The row of a thread that is there.
    #[inline(always)]
    fn row_there(&self, thread: u32) -> Option<u32>
        ensures own { IfSome result (λ row. row_of self.now thread ≡ Some row) }
        ensures row { IfSome result (IsRow ROWS) }
        ensures there { Tells self.now (λ events past. is_some result ≡ is_there thread past) }
    {
        let row = self.row_of(thread)?;
        if self.rows.left(row) { None } else { Some(row) }
    }

    /// The place of a session among those that are present.
    #[inline(always)]
    pub fn place_of(&self, session: u32) -> Option<usize>
        ensures { result ≡ place_of self.now session }
    {
        // Mostly as many sessions stand before it as came after it.
        let likely = self.last_session.wrapping_sub(session) as usize;
        match self.present.get(likely) {
            Some(present) if present.number == session => Some(likely),
            _ => self.place_in_turn(session),
        }
    }

    // The same, where each is looked at in turn.
    #[inline(never)]
    fn place_in_turn(&self, session: u32) -> Option<usize>
        ensures { result ≡ place_of self.now session }
    {
        self.present
            .iter()
            .position(|present| present.number == session)
    }

    // Whether no event has this number.
    fn lacks_event(&self, number: u32) -> bool
        ensures { result ≡ is_none (definition_at self.now.events.items number) }
    {
        if number == 0 {
            return true;
        }
        self.events.get(number as usize - 1).is_none()
    }
}

// The place that a thread's number chooses.
fn near_place(thread: u32) -> usize
    ensures { result ≡ thread % ROWS }
{
    (thread % THREADS) as usize
}
