//! Definitions of events, and how often each is used.
ghost use Rattle.std.specs.Prelude.{◌≡◌, ℕ, Some, [], ◌∷◌, ◌++◌, List, OnOk};
ghost use Rattle.ep_defs.specs.declared.event.EventDef.{EventDef};
ghost use Rattle.nt_blocks.specs.Ordered.{lookup};
ghost use Rattle.pt_report.specs.state.Events.{ShowsEvents};

use crate::key::{EventKey, Text};
use crate::tally::Tally;
use ep_defs::{Duplicate, EventDef};
use nt_check::ById;
use std::alloc::{AllocError, Global};

/// Where the events of a definition are counted: the places of its provider and of its event.
#[derive(Clone, Copy, Drop)]
pub struct EventPlaces {
    provider: usize,
    event: usize,
}

/// What is counted by definitions.
#[derive(Drop)]
pub struct Events {
    // Where the events of each metadata id are counted.
    metadata: ById<EventPlaces>,
    pub(crate) providers: Tally<Text<u16>>,
    pub(crate) events: Tally<EventKey>,
}

impl Events {
    pub fn new(alloc: Global) -> Events
        ensures { ShowsEvents [] [] [] result }
    {
        Events {
            metadata: ById::new(alloc),
            providers: Tally::new(alloc),
            events: Tally::new(alloc),
        }
    }

    /// One definition more, under its metadata id.
    pub fn define(&mut self, alloc: Global, id: u32, def: &EventDef) -> Result<(), AllocError>
        ensures { OnOk result ((defs : List EventDef) → (uses : List EventDef)
            → (named : List (ℕ × EventDef)) → ShowsEvents defs uses named self.old
            → ShowsEvents (defs ++ def.now ∷ []) uses ((id, def.now) ∷ named) self.new) }
    {
        let key = EventKey::of(alloc, def)?;
        let provider = self.providers.name(key.provider.copy(alloc)?)?;
        let event = self.events.name(key)?;
        self.metadata
            .insert(u64::from(id), EventPlaces { provider, event })?;
        Ok(())
    }

    /// One event more, of the definition under this metadata id.
    #[inline(always)]
    pub fn count(&mut self, id: u32)
        ensures { (defs : List EventDef) → (uses : List EventDef) → (named : List (ℕ × EventDef))
            → (def : EventDef) → ShowsEvents defs uses named self.old → lookup id named ≡ Some def
            → ShowsEvents defs (uses ++ def ∷ []) named self.new }
    {
        if let Some(places) = self.metadata.get(u64::from(id)) {
            let EventPlaces { provider, event } = *places;
            self.providers.count(provider);
            self.events.count(event);
        }
    }
}
