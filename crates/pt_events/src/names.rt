//! What ids stand for.
ghost use Rattle.std.specs.Prelude.{◌≡◌, ℕ, [], Ok, Err, List, OnOk, MatchResult, is_some};
ghost use Rattle.ep_defs.specs.declared.item.ItemKind.TheVariants as item;
ghost use Rattle.nt_blocks.specs.Ordered.{Names, no_names, tell, names_after};
ghost use Rattle.nt_check.specs.declared.checker.CheckKind.{CheckKind};
ghost use Rattle.nt_check.specs.declared.checker.CheckFault.TheVariants.{Bad};
ghost use Rattle.nt_check.specs.Faults.{disorder_of};
ghost use Rattle.nt_check.specs.state.Ids.{value_at};
ghost use Rattle.pt_events.specs.state.Known.{Knows, IsFound, IsUnknown};

use ep_defs::{Bytes, EventDef};
use nt_check::{ById, CheckFault, CheckKind};
use pt_lines::{Form, NamedDef, ShownStack};
use std::alloc::Global;

/// The definitions by their metadata ids, and the stacks since the last point by theirs.
#[derive(Drop)]
pub struct KnownNames {
    definitions: ById<NamedDef>,
    stacks: ById<ShownStack>,
    // That of an event which has none.
    none: ShownStack,
}

impl KnownNames {
    /// No names. It takes no memory.
    pub fn new(alloc: Global) -> KnownNames
        ensures { Knows no_names result }
    {
        KnownNames {
            definitions: ById::new(alloc),
            stacks: ById::new(alloc),
            none: ShownStack::none(alloc),
        }
    }

    // Whether a metadata id is defined.
    fn is_defined(&self, id: u32) -> bool
        ensures { result ≡ is_some (value_at self.now.definitions id) }
    {
        self.definitions.get(u64::from(id)).is_some()
    }

    // Whether a stack id is defined.
    fn is_stack(&self, id: u32) -> bool
        ensures { result ≡ is_some (value_at self.now.stacks id) }
    {
        self.stacks.get(u64::from(id)).is_some()
    }

    /// One definition more. It is refused exactly where its id has one.
    pub fn define(&mut self, alloc: Global, id: u32, def: &EventDef) -> Result<(), CheckFault>
        ensures defined { (names : Names) → Knows names self.old
            → OnOk result ((tell names (item.Meta id def.now) ≡ Ok []) × Knows (names_after names (item.Meta id def.now)) self.new) }
        ensures refused { (names : Names) → Knows names self.old → (fault : CheckKind)
            → result ≡ Err (Bad fault) → tell names (item.Meta id def.now) ≡ Err (disorder_of fault) }
    {
        if self.is_defined(id) {
            return Err(CheckFault::Bad(CheckKind::MetadataTwice { id }));
        }
        let def = NamedDef::new(alloc, def)?;
        self.definitions.insert(u64::from(id), def)?;
        Ok(())
    }

    /// One stack more, for lines of this form, in a stream that says this of the size of an address. It is refused exactly where
    /// its id has one since the last point.
    pub fn define_stack(
        &mut self,
        alloc: Global,
        form: Form,
        address: u32,
        id: u32,
        bytes: &Bytes,
    ) -> Result<(), CheckFault>
        ensures defined { (names : Names) → Knows names self.old
            → OnOk result ((tell names (item.Stack id bytes.now) ≡ Ok []) × Knows (names_after names (item.Stack id bytes.now)) self.new) }
        ensures refused { (names : Names) → Knows names self.old → (fault : CheckKind)
            → result ≡ Err (Bad fault) → tell names (item.Stack id bytes.now) ≡ Err (disorder_of fault) }
    {
        if self.is_stack(id) {
            return Err(CheckFault::Bad(CheckKind::StackTwice { id }));
        }
        let stack = ShownStack::new(alloc, form, address, bytes)?;
        self.stacks.insert(u64::from(id), stack)?;
        Ok(())
    }

    /// The definition and the stack of an event with these ids, or which of them stands for nothing.
    pub fn find(&self, metadata: u32, stack: u32) -> Result<(&NamedDef, &ShownStack), CheckFault>
        ensures { (names : Names) → Knows names self.now
            → MatchResult result (λ found. IsFound names metadata stack found.0.now found.1.now)
            (λ fault. (kind : CheckKind) × (fault ≡ Bad kind) × IsUnknown names metadata stack (disorder_of kind)) }
    {
        let Some(def) = self.definitions.get(u64::from(metadata)) else {
            return Err(CheckFault::Bad(CheckKind::UnknownMetadata { id: metadata }));
        };
        if stack == 0 {
            return Ok((def, &self.none));
        }
        match self.stacks.get(u64::from(stack)) {
            Some(stack) => Ok((def, stack)),
            None => Err(CheckFault::Bad(CheckKind::UnknownStack { id: stack })),
        }
    }

    /// The ids of stacks stand for nothing from here on.
    pub fn clear_stacks(&mut self)
        ensures { (names : Names) (stamp : ℕ) (threads : List (ℕ × ℕ)) → Knows names self.old
            → Knows (names_after names (item.Point stamp threads)) self.new }
    {
        self.stacks.clear();
    }
}
