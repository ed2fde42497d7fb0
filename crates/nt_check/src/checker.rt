//! The checker and its answers.
ghost use Rattle.std.specs.Prelude.{◌≡◌, ◌↔◌, [], ◌∷◌, ◌++◌, List, Err, IfOk, OnOk, OnErr, is_some, not};
ghost use Rattle.ep_defs.specs.declared.item.ItemKind.{ItemKind};
ghost use Rattle.nt_blocks.specs.Ordered.{no_names, told_after};
ghost use Rattle.nt_check.specs.declared.checker.CheckKind.{CheckKind};
ghost use Rattle.nt_check.specs.Events.{EventRest, event_item};
ghost use Rattle.nt_check.specs.Faults.{disorder_of};
ghost use Rattle.nt_check.specs.Numbers.{numbers_of};

use crate::ids::Ids;
use crate::threads::{Numbers, Threads};
use ep_defs::ItemKind;
use std::alloc::{AllocError, Global};

/// Why an item can't stand where it does.
#[derive(Clone, Copy, Debug, PartialEq, Eq)]
pub enum CheckKind {
    /// An event's metadata id was not defined before.
    UnknownMetadata { id: u32 },
    /// An event's stack id is not 0 and was not defined since the last point.
    UnknownStack { id: u32 },
    /// A metadata id is defined again.
    MetadataTwice { id: u32 },
    /// A stack id is defined again with no point between.
    StackTwice { id: u32 },
}

/// Why an item was not taken.
#[derive(Clone, Copy, Debug, PartialEq, Eq)]
pub enum CheckFault {
    Bad(CheckKind),
    OutOfMemory,
}

impl From<AllocError> for CheckFault {
    ghost use Rattle.std.specs.Prelude.{◌≡◌};
    ghost use Rattle.nt_check.specs.declared.checker.CheckFault.TheVariants.{OutOfMemory};

    ghost from_gives = { λ _ fault. fault ≡ OutOfMemory };

    fn from(_error: AllocError) -> CheckFault {
        CheckFault::OutOfMemory
    }
}

/// What an event names: its definition, its capture thread with the thread's number of it, and its stack.
#[derive(Clone, Copy, Debug, PartialEq, Eq)]
pub struct EventNames {
    pub metadata: u32,
    pub number: u32,
    pub capture: u64,
    pub stack: u32,
}

/// Checks items one after another. It stands for the list of the items that it took.
#[derive(Drop)]
pub struct Checker {
    ids: Ids,
    threads: Threads,
}

impl Checker {
    ghost use Rattle.nt_check.specs.declared.checker.CheckFault.TheVariants.{Bad};
    ghost use Rattle.nt_check.specs.state.Took.{Took};

    /// A checker that has taken no item. It takes no memory.
    pub fn new(alloc: Global) -> Checker
        ensures { Took [] result }
    {
        Checker {
            ids: Ids::new(alloc),
            threads: Threads::new(alloc),
        }
    }

    /// Takes one more item. It is refused exactly where it can't stand after the items that were taken, with the
    /// reason. After a fault the checker stands for the same items as before.
    pub fn item(&mut self, kind: &ItemKind) -> Result<(), CheckFault>
        ensures taken { OnOk result ((kinds : List ItemKind) → Took kinds self.old
            → Took (kinds ++ kind.now ∷ []) self.new) }
        ensures refused { (kinds : List ItemKind) → Took kinds self.old → (fault : CheckKind)
            → (result ≡ Err (Bad fault))
            ↔ (told_after no_names (kinds ++ kind.now ∷ []) ≡ Err (disorder_of fault)) }
        ensures unchanged { OnErr result ((kinds : List ItemKind) → Took kinds self.old
            → Took kinds self.new) }
    {
        if let Some(fault) = self.ids.fault_of(kind) {
            return Err(CheckFault::Bad(fault));
        }
        self.threads.make_room(kind)?;
        self.ids.define(kind)?;
        self.threads.see(kind);
        Ok(())
    }

    /// Takes one more event, as `item` does, of which it wants what it names alone. Answers whether the items before it
    /// tell nothing of its capture thread.
    #[inline(always)]
    pub fn event(&mut self, event: &EventNames) -> Result<bool, CheckFault>
        ensures taken { OnOk result ((kinds : List ItemKind) → Took kinds self.old → (rest : EventRest)
            → Took (kinds ++ event_item event.now rest ∷ []) self.new) }
        ensures first { IfOk result (λ first. (kinds : List ItemKind) → Took kinds self.old
            → first ≡ not (is_some (numbers_of event.now.capture kinds))) }
        ensures refused { (kinds : List ItemKind) → Took kinds self.old → (rest : EventRest) → (fault : CheckKind)
            → (result ≡ Err (Bad fault))
            ↔ (told_after no_names (kinds ++ event_item event.now rest ∷ []) ≡ Err (disorder_of fault)) }
        ensures unchanged { OnErr result ((kinds : List ItemKind) → Took kinds self.old
            → Took kinds self.new) }
    {
        if let Some(fault) = self.ids.event_fault(event) {
            return Err(CheckFault::Bad(fault));
        }
        let first = self.threads.count_event(event.capture, event.number)?;
        Ok(first)
    }

    /// What the items that were taken tell of a thread: None exactly where it was no event's capture thread, and no
    /// point named it.
    pub fn gaps(&self, thread: u64) -> Option<Numbers>
        ensures { (kinds : List ItemKind) → Took kinds self.now → result ≡ numbers_of thread kinds }
    {
        self.threads.numbers(thread)
    }
}
