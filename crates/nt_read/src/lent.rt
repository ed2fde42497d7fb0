//! What an object tells, where no item is made of an event.
ghost use Rattle.std.specs.Prelude.{◌≡◌, []};

use crate::telling::Telling;
use ep_defs::Item;
use nt_blocks::{BodyFault, EventBody, take_body};
use nt_object::BlockKind;
use std::alloc::{AllocError, Global};

/// What an object tells: items, or the events of a block with the bytes of its body, in which their payloads stand.
#[derive(Drop)]
pub struct Lent {
    pub items: Vec<Item>,
    pub events: EventBody,
}

impl Lent {
    ghost use Rattle.nt_read.specs.Lent.{told_by};

    /// Nothing is told. It takes no memory.
    pub fn new(alloc: Global) -> Lent
        ensures { told_by result ≡ [] }
    {
        Lent {
            items: Vec::new(alloc),
            events: EventBody::new(alloc),
        }
    }
}

impl Telling for Lent {
    ghost use Rattle.nt_read.specs.Lent.{TellsInPlace};

    ghost tells = { TellsInPlace };

    fn nothing(alloc: Global) -> Lent {
        Lent::new(alloc)
    }

    fn clear(&mut self) {
        self.items.clear();
        self.events.clear();
    }

    fn tell(&mut self, item: Item) -> Result<(), AllocError> {
        self.items.clear();
        self.events.clear();
        self.items.push(item)?;
        Ok(())
    }

    fn tell_body(
        &mut self,
        alloc: Global,
        kind: BlockKind,
        body: &[u8],
        at: u64,
    ) -> Result<(), BodyFault> {
        self.items.clear();
        match kind {
            BlockKind::Event => self.events.take(body, at),
            _ => {
                self.events.clear();
                take_body(alloc, kind, body, at, &mut self.items)
            }
        }
    }
}
