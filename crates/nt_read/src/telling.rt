//! What a reader keeps of the object that is open, and tells at its end.
ghost use Rattle.std.specs.Prelude.{◌+◌, ◌<◌, ◌^◌, List, [], ◌∷◌, length, IfErr, OnOk};
ghost use Rattle.ep_defs.specs.declared.item.Item.{Item};
ghost use Rattle.nt_blocks.specs.Refusals.{body_at};
ghost use Rattle.nt_blocks.specs.Taking.{IsFault, StandsWithin};
ghost use Rattle.nt_read.specs.Telling.{IsTold};

use ep_defs::Item;
use nt_blocks::BodyFault;
use nt_object::BlockKind;
use std::alloc::{AllocError, Global};

/// What is kept of the items of one object: the items themselves, or as much as stands for them.
pub trait Telling {
    /// It stands for these items.
    ghost tells: { Self → List Item → Type 0 };

    /// Nothing. It takes no memory.
    fn nothing(alloc: Global) -> Self
        ensures { tells result [] };

    /// Tells nothing from here on, and keeps the room.
    fn clear(&mut self)
        ensures { tells self.new [] };

    /// Tells this one item from here on.
    fn tell(&mut self, item: Item) -> Result<(), AllocError>
        ensures { OnOk result (tells self.new (item ∷ [])) };

    /// Tells what a whole body of this kind has from here on, which stands at this offset of the stream. The fault is that
    /// of `nt_blocks::take_body`.
    fn tell_body(
        &mut self,
        alloc: Global,
        kind: BlockKind,
        body: &[u8],
        at: u64,
    ) -> Result<(), BodyFault>
        requires { at + length body.now < 2 ^ 63 }
        ensures ok { OnOk result (IsTold (body_at kind at body.now) (tells self.new)) }
        ensures fault { IfErr result (λ fault. IsFault (body_at kind at body.now) at fault) }
        ensures stands { IfErr result (λ fault. StandsWithin (length body.now) fault) };
}

impl Telling for Vec<Item> {
    ghost use Rattle.nt_read.specs.Telling.{TellsItems};

    ghost tells = { TellsItems };

    fn nothing(alloc: Global) -> Vec<Item> {
        Vec::new(alloc)
    }

    fn clear(&mut self) {
        self.truncate(0);
    }

    fn tell(&mut self, item: Item) -> Result<(), AllocError> {
        self.truncate(0);
        self.push(item)?;
        Ok(())
    }

    fn tell_body(
        &mut self,
        alloc: Global,
        kind: BlockKind,
        body: &[u8],
        at: u64,
    ) -> Result<(), BodyFault> {
        self.truncate(0);
        nt_blocks::take_body(alloc, kind, body, at, self)
    }
}
