//! Stacks by their ids.
ghost use Rattle.std.specs.Prelude.{◌≡◌, ◌↔◌, IsTrue, is_some, not, IfOk, OnErr, if◌then◌else◌};
ghost use Rattle.std.specs.Ordering.{nat_cmp};
ghost use Rattle.std.specs.Option.{option_map};
ghost use Rattle.std.specs.FinMap as map;

use std::alloc::{AllocError, Global};
use std::collections::BTreeMap;
use std::marker::Model;

/// What the ids of stacks stand for since the last clear. Contracts see a finite map from ids to bytes.
#[derive(Drop)]
pub struct StackTable {
    stacks: BTreeMap<u32, Vec<u8>>,
}

impl Model for StackTable {
    ghost use Rattle.std.specs.Prelude.{List, ℕ, map as each};
    ghost use Rattle.std.specs.Ordering.{nat_cmp};
    ghost use Rattle.std.specs.Coded.{coded_ℕ, coded_list};
    ghost use Rattle.std.specs.FinMap as map;

    ghost Value = { map.FinMap nat_cmp (List ℕ) };

    ghost coded = { map.code coded_ℕ (coded_list coded_ℕ) };

    ghost view = { λ table. map.from_entries (each (λ entry. (entry.0, entry.1.items)) table.stacks.entries) };
}

impl StackTable {
    /// A table without stacks. It takes no memory.
    pub fn new(alloc: Global) -> StackTable
        ensures { result ≡ map.empty }
    {
        StackTable {
            stacks: BTreeMap::new(alloc),
        }
    }

    /// Forgets all stacks.
    pub fn clear(&mut self)
        ensures { self.new ≡ map.empty }
    {
        self.stacks.clear();
    }

    /// Defines the stack with this id, and answers true. Where the id is there already it changes nothing, and answers
    /// false. Out of memory, it changes nothing.
    pub fn define(&mut self, alloc: Global, id: u32, bytes: &[u8]) -> Result<bool, AllocError>
        ensures ok { IfOk result (λ defined. self.new
            ≡ (if defined then map.insert self.old id bytes.now else self.old)) }
        ensures defined { IfOk result (λ defined. defined ≡ not (map.contains_key self.old id)) }
        ensures err { OnErr result (self.new ≡ self.old) }
    {
        if self.stacks.contains_key(&id) {
            return Ok(false);
        }
        let stack = Vec::from_slice(alloc, bytes)?;
        self.stacks.insert(id, stack)?;
        Ok(true)
    }

    /// The bytes of the stack with this id, None where it was not defined since the last clear.
    pub fn find(&self, id: u32) -> Option<&[u8]>
        ensures { option_map (λ stack. stack.now) result ≡ map.get self.now id }
    {
        match self.stacks.get(&id) {
            Some(stack) => Some(stack.as_slice()),
            None => None,
        }
    }
}
