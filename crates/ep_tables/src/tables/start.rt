//! The tables before the first step.
ghost use Rattle.std.specs.Prelude.{◌≡◌, ◌≤◌, ◌<◌, ◌%◌, ℕ, None, Some, true, length, slice_get, IfOk, IsTrue, if◌then◌else◌};
ghost use Rattle.std.specs.BTreeMap.{get};
ghost use Rattle.std.specs.Int.{is_in_range};
ghost use Rattle.std.specs.List.{list_all};
ghost use Rattle.std.specs.Ordering.{nat_cmp};
ghost use Rattle.ep_defs.specs.Definitions.{AreDistinct, definition_at};
ghost use Rattle.ep_defs.specs.Event.{is_valid_event};
ghost use Rattle.ep_defs.specs.declared.limits.TheConstants.{EVENTS as MOST_EVENTS, THREADS as ROWS};
ghost use Rattle.ep_rundown.specs.Rundown.{lacks_rundown};
ghost use Rattle.ep_tables.specs.declared.judged.OnRow.{OnRow};
ghost use Rattle.ep_tables.specs.Made.{IsStart};
ghost use Rattle.ep_tables.specs.Tied.{AreTied};

use crate::judged::OnRow;
use crate::tables::Tables;
use ep_defs::limits::{EVENTS, THREADS};
use ep_defs::{EventDef, copies};
use ep_rows::Rows;
use ep_table::Table;
use std::alloc::{AllocError, Global};
use std::collections::BTreeMap;

impl Tables {
    /// The tables of a program with these events, of which no thread has made a write yet.
    pub fn new(alloc: Global, events: Vec<EventDef>) -> Result<Tables, AllocError>
        requires few { length events.items ≤ EVENTS }
        requires valid { IsTrue (list_all is_valid_event events.items) }
        requires distinct { AreDistinct (definition_at events.items) }
        requires lacks { IsTrue (lacks_rundown events.items) }
        ensures start { IfOk result (IsStart events.items) }
        ensures tied { IfOk result AreTied }
    {
        let rows = Rows::new(alloc, copies(alloc, events.as_slice())?)?;
        let threads = first_threads(alloc)?;
        Ok(Tables {
            events,
            rows,
            threads,
            near: first_near(alloc)?,
            present: Vec::new(alloc),
            table: Table::new(),
            last_session: 0,
            last_thread: THREADS,
            begins: 0,
        })
    }
}

// The threads that are there from the start, each with the row of its number.
fn first_threads(alloc: Global) -> Result<BTreeMap<u32, u32>, AllocError>
    ensures { IfOk result (λ threads. (t : ℕ)
        → get nat_cmp threads t ≡ (if is_in_range 1 ROWS t then Some t else None)) }
{
    let mut threads = BTreeMap::new(alloc);
    for before in 0..THREADS {
        threads.insert(before + 1, before + 1)?;
    }
    Ok(threads)
}

// Each of these threads in the place that its number chooses.
fn first_near(alloc: Global) -> Result<Vec<OnRow>, AllocError>
    ensures count { IfOk result (λ near. length near.items ≡ ROWS) }
    ensures known { IfOk result (λ near. (place : ℕ) (on : OnRow) → slice_get near.items place ≡ Some on
        → (on.thread % ROWS ≡ place) × (on.row ≡ on.thread) × (is_in_range 1 ROWS on.thread ≡ true)) }
{
    let mut near = Vec::with_capacity(alloc, THREADS as usize)?;
    for place in 0..THREADS {
        let thread = first_thread(place);
        near.push(OnRow {
            thread,
            row: thread,
        })?;
    }
    Ok(near)
}

// The thread that is there from the start and whose number chooses this place.
fn first_thread(place: u32) -> u32
    requires { place < THREADS }
    ensures chosen { result % ROWS ≡ place }
    ensures there { is_in_range 1 ROWS result ≡ true }
{
    if place == 0 { THREADS } else { place }
}
