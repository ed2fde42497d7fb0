//! Stacks by their bytes.
ghost use Rattle.std.specs.Prelude.{◌≡◌, ◌+◌, ◌<◌, ◌≤◌, [], length, nat_lt, IfOk, OnOk, OnErr, if◌then◌else◌};
ghost use Rattle.nt_stacks.specs.Stacks.{stack_id, with_stack, IsOfNoOther};

use crate::limits::MOST_STACKS;
use crate::recent::Recent;
use std::alloc::{AllocError, Global};
use std::collections::BTreeMap;
use std::marker::Model;

/// The id of a stack, and whether it was given just now.
#[derive(Debug, Clone, Copy, PartialEq, Eq)]
pub struct Interned {
    /// From 1 on, or 0 for no bytes.
    pub id: u32,
    pub is_new: bool,
}

/// Gives ids to stacks: 1, 2, 3, .. in the order of their first use since the last clear. Contracts see the stacks in
/// the order of their ids.
#[derive(Drop)]
pub struct Interner {
    // The id of each stack.
    ids: BTreeMap<Vec<u8>, u32>,
    // Those that were asked for lately.
    recent: Recent,
}

impl Model for Interner {
    ghost use Rattle.std.specs.Prelude.{List, ℕ, map};
    ghost use Rattle.nt_stacks.specs.Interning.{stacks_of, AreInterned, AreKnown};

    ghost Value = { List (List ℕ) };

    ghost view = { λ interner. stacks_of (map (λ entry. (entry.0.items, entry.1)) interner.ids.entries) };

    ghost invariant = { λ interner. AreInterned (map (λ entry. (entry.0.items, entry.1)) interner.ids.entries)
        × AreKnown (map (λ entry. (entry.0.items, entry.1)) interner.ids.entries) interner.recent };
}

impl Interner {
    /// An interner without stacks. It takes no memory.
    pub fn new(alloc: Global) -> Interner
        ensures { result ≡ [] }
    {
        Interner {
            ids: BTreeMap::new(alloc),
            recent: Recent::new(alloc),
        }
    }

    /// Forgets all stacks. The next one has the id 1 again.
    pub fn clear(&mut self)
        ensures { self.new ≡ [] }
    {
        self.ids.clear();
        self.recent.clear();
    }

    /// The id of the stack with these bytes, which is 0 for no bytes. A stack that was not there since the last clear
    /// gets the next id. Out of memory, it changes nothing.
    // Out of line: inside what calls it, it takes the C library two instructions more an event.
    #[inline(never)]
    pub fn id_of(&mut self, alloc: Global, bytes: &[u8]) -> Result<Interned, AllocError>
        requires { length self.old < MOST_STACKS }
        ensures ok { OnOk result (self.new ≡ with_stack self.old bytes.now) }
        ensures id { IfOk result (λ interned. interned.id ≡ stack_id self.new bytes.now) }

        // Ids that were given before are those up to the number of stacks.
        ensures is_new { IfOk result (λ interned. interned.is_new ≡ nat_lt (length self.old) interned.id) }
        ensures count { IfOk result (λ interned. length self.new
            ≡ length self.old + (if interned.is_new then 1 else 0)) }
        ensures small { IfOk result (λ interned. interned.id ≤ length self.new) }
        ensures equal { IfOk result (λ interned. IsOfNoOther self.new interned.id bytes.now) }
        ensures err { OnErr result (self.new ≡ self.old) }
    {
        if bytes.is_empty() {
            return Ok(Interned {
                id: 0,
                is_new: false,
            });
        }
        if let Some(id) = self.recent.find(bytes) {
            return Ok(Interned { id, is_new: false });
        }
        self.id_in_map(alloc, bytes)
    }

    // The same, for a stack that was not asked for lately.
    #[inline(never)]
    fn id_in_map(&mut self, alloc: Global, bytes: &[u8]) -> Result<Interned, AllocError>
        requires few { length self.old < MOST_STACKS }
        requires some { 0 < length bytes.now }
        ensures ok { OnOk result (self.new ≡ with_stack self.old bytes.now) }
        ensures id { IfOk result (λ interned. interned.id ≡ stack_id self.new bytes.now) }
        ensures is_new { IfOk result (λ interned. interned.is_new ≡ nat_lt (length self.old) interned.id) }
        ensures count { IfOk result (λ interned. length self.new
            ≡ length self.old + (if interned.is_new then 1 else 0)) }
        ensures small { IfOk result (λ interned. interned.id ≤ length self.new) }
        ensures equal { IfOk result (λ interned. IsOfNoOther self.new interned.id bytes.now) }
        ensures err { OnErr result (self.new ≡ self.old) }
    {
        if let Some(id) = self.ids.get(bytes) {
            let id = *id;
            self.recent.keep(alloc, bytes, id);
            return Ok(Interned { id, is_new: false });
        }
        let id = self.ids.len() as u32 + 1;
        let stack = Vec::from_slice(alloc, bytes)?;
        self.ids.insert(stack, id)?;
        self.recent.keep(alloc, bytes, id);
        Ok(Interned { id, is_new: true })
    }
}
