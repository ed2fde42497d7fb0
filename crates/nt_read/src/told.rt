//! What an object tells, where of an event what it names is enough.
ghost use Rattle.std.specs.Prelude.{◌≡◌, []};

use crate::telling::Telling;
use ep_defs::Item;
use nt_blocks::{BodyFault, take_body};
use nt_names::{EventAt, take_names};
use nt_object::BlockKind;
use std::alloc::{AllocError, Global};

/// What an object tells: items, or the events of a block by what they name.
#[derive(Drop)]
pub struct Told {
    pub items: Vec<Item>,
    pub events: Vec<EventAt>,
}

impl Told {
    /// Nothing is told. It takes no memory.
    pub fn new(alloc: Global) -> Told
        ensures items { result.items.items ≡ [] }
        ensures events { result.events.items ≡ [] }
    {
        Told {
            items: Vec::new(alloc),
            events: Vec::new(alloc),
        }
    }
}

impl Telling for Told {
    ghost use Rattle.nt_read.specs.Names.{TellsNames};

    ghost tells = { TellsNames };

    fn nothing(alloc: Global) -> Told {
        Told::new(alloc)
    }

    fn clear(&mut self) {
        self.items.clear();
        self.events.clear();
    }

    fn tell(&mut self, item: Item) -> Result<(), AllocError> {
        self.items.clear();
        self.events.clear();
        self.items.push(item)?;
        Ok(())
    }

    fn tell_body(
        &mut self,
        alloc: Global,
        kind: BlockKind,
        body: &[u8],
        at: u64,
    ) -> Result<(), BodyFault> {
        self.items.clear();
        self.events.clear();
        match kind {
            BlockKind::Event => take_names(body, at, &mut self.events),
            _ => take_body(alloc, kind, body, at, &mut self.items),
        }
    }
}
