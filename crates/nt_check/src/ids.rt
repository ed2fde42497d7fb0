//! Which ids are defined.
ghost use Rattle.std.specs.Prelude.{◌≡◌, Ok, Err, List, [], IsOk, OnOk, OnErr, MatchOption, is_some};
ghost use Rattle.ep_defs.specs.Entry.{Entry};
ghost use Rattle.nt_blocks.specs.Ordered.{Disorder, Names, no_names, tell, names_after};
ghost use Rattle.nt_check.specs.Events.{EventRest, event_item};
ghost use Rattle.nt_check.specs.Faults.{disorder_of};
ghost use Rattle.nt_check.specs.state.Ids.{value_at};

use crate::by_id::ById;
use crate::checker::{CheckKind, EventNames};
use ep_defs::ItemKind;
use std::alloc::{AllocError, Global};

/// The metadata ids that are defined, and the stack ids that are defined since the last point.
#[derive(Drop)]
pub struct Ids {
    definitions: ById<()>,
    stacks: ById<()>,
}

impl Ids {
    ghost use Rattle.nt_check.specs.state.Took.{Knows};

    /// No ids.
    pub fn new(alloc: Global) -> Ids
        ensures { Knows no_names result }
    {
        Ids {
            definitions: ById::new(alloc),
            stacks: ById::new(alloc),
        }
    }

    // Whether a metadata id is defined.
    #[inline(always)]
    fn is_defined(&self, id: u32) -> bool
        ensures { result ≡ is_some (value_at self.now.definitions id) }
    {
        self.definitions.get(u64::from(id)).is_some()
    }

    // Whether a stack id is defined.
    #[inline(always)]
    fn is_stack(&self, id: u32) -> bool
        ensures { result ≡ is_some (value_at self.now.stacks id) }
    {
        self.stacks.get(u64::from(id)).is_some()
    }

    /// Why an event with these ids can't stand here, if it can't.
    #[inline(always)]
    pub fn event_fault(&self, event: &EventNames) -> Option<CheckKind>
        ensures { (names : Names) → Knows names self.now → (rest : EventRest)
            → let told = tell names (event_item event.now rest) in
            MatchOption result (IsOk told) (λ fault. told ≡ Err (disorder_of fault)) }
    {
        if !self.is_defined(event.metadata) {
            return Some(CheckKind::UnknownMetadata { id: event.metadata });
        }
        if event.stack != 0 && !self.is_stack(event.stack) {
            return Some(CheckKind::UnknownStack { id: event.stack });
        }
        None
    }

    /// Why an item can't stand here, if it can't.
    pub fn fault_of(&self, kind: &ItemKind) -> Option<CheckKind>
        ensures { (names : Names) → Knows names self.now
            → MatchOption result (IsOk (tell names kind.now)) (λ fault. tell names kind.now ≡ Err (disorder_of fault)) }
    {
        match kind {
            ItemKind::Meta { id, .. } if self.is_defined(*id) => {
                Some(CheckKind::MetadataTwice { id: *id })
            }
            ItemKind::Stack { id, .. } if self.is_stack(*id) => {
                Some(CheckKind::StackTwice { id: *id })
            }
            ItemKind::Event {
                metadata,
                number,
                capture,
                stack,
                ..
            } => self.event_fault(&EventNames {
                metadata: *metadata,
                number: *number,
                capture: *capture,
                stack: *stack,
            }),
            _ => None,
        }
    }

    /// The ids that stand after an item. Where it is out of memory they stay as they were.
    pub fn define(&mut self, kind: &ItemKind) -> Result<(), AllocError>
        ensures ok { OnOk result ((names : Names) → Knows names self.old
            → Knows (names_after names kind.now) self.new) }
        ensures err { OnErr result ((names : Names) → Knows names self.old → Knows names self.new) }
    {
        match kind {
            ItemKind::Meta { id, .. } => {
                self.definitions.insert(u64::from(*id), ())?;
            }
            ItemKind::Stack { id, .. } => {
                self.stacks.insert(u64::from(*id), ())?;
            }
            ItemKind::Point { .. } => self.stacks.clear(),
            _ => {}
        }
        Ok(())
    }
}
