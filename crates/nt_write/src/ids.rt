//! The metadata ids of a stream's definitions.
ghost use Rattle.std.specs.Prelude.{◌≡◌, ℕ, ◌+◌, ◌<◌, ◌≤◌, ◌++◌, ◌==◌, List, [], ◌∷◌, Some, length, count_by, IfOk};
ghost use Rattle.nt_meta.specs.declared.limits.TheConstants.{LAST_ID};
ghost use Rattle.nt_write.specs.declared.limits.TheConstants.{LAST_EVENT};

use crate::limits::LAST_EVENT;
use std::alloc::{AllocError, Global};

// One for each number of a definition, and for 0.
const PLACES: usize = LAST_EVENT as usize + 1;

/// The metadata id of each definition by the definition's number. The ids are 1, 2, 3, .. in the order of first use.
#[derive(Debug, Drop)]
pub struct IdTable {
    // 0 where no id was given.
    table: Vec<u32>,
    // The numbers that have ids, in the order of the ids, and 0 after them.
    numbers: Vec<u32>,
    // How many ids were given.
    used: u32,
    ghost places: { length table.items ≡ LAST_EVENT + 1 },
    ghost room: { length numbers.items ≡ LAST_EVENT + 1 },
    // Each id that is given takes a free place.
    ghost few: { used + count_by (λ id. id == 0) table.items ≤ LAST_EVENT + 1 },
}

impl IdTable {
    ghost use Rattle.ep_defs.specs.declared.event.EventDef.{EventDef};
    ghost use Rattle.std.specs.Prelude.{Option};
    ghost use Rattle.ep_defs.specs.Definitions.{AreDistinct};
    ghost use Rattle.nt_write.specs.Writing.{AreIds, id_at, numbers_in};

    /// A table without ids.
    pub fn new(alloc: Global) -> Result<IdTable, AllocError>
        ensures { (defs : ℕ → Option EventDef) → IfOk result (λ ids. AreIds defs [] ids) }
    {
        let table = vec![in alloc; 0; PLACES]?;
        let numbers = vec![in alloc; 0; PLACES]?;
        Ok(IdTable {
            table,
            numbers,
            used: 0,
        })
    }

    /// The id at this number, 0 where none was given.
    pub fn get(&self, number: u32) -> u32
        requires { number ≤ LAST_EVENT }
        ensures { result ≡ id_at self.now number }
    {
        self.table[number as usize]
    }

    /// The id that is given next.
    pub fn next(&self) -> u32
        ensures positive { 0 < result }
        ensures small { result ≤ LAST_ID }
        ensures next { (defs : ℕ → Option EventDef) (definitions : List EventDef)
            → AreIds defs definitions self.now → result ≡ length definitions + 1 }
    {
        self.used + 1
    }

    /// The numbers that have ids, in the order of the ids.
    pub fn numbers(&self) -> &[u32]
        ensures is { result.now ≡ numbers_in self.now }
        ensures few { length result.now ≤ LAST_EVENT + 1 }
    {
        &self.numbers[..self.used as usize]
    }

    /// Gives the next id to the definition with this number, which has none.
    pub fn give(&mut self, number: u32) -> u32
        requires number { number ≤ LAST_EVENT }
        requires free { id_at self.old number ≡ 0 }
        ensures positive { 0 < result }
        ensures next { (defs : ℕ → Option EventDef) (definitions : List EventDef)
            → AreIds defs definitions self.old → result ≡ length definitions + 1 }
        ensures given { (defs : ℕ → Option EventDef) (definitions : List EventDef) (def : EventDef)
            → AreIds defs definitions self.old → AreDistinct defs → defs number ≡ Some def
            → AreIds defs (definitions ++ def ∷ []) self.new }
    {
        self.numbers[self.used as usize] = number;
        self.used += 1;
        self.table[number as usize] = self.used;
        self.used
    }
}
