//! The reader that hands out the items.
ghost use Rattle.std.specs.Prelude.{◌≡◌, ℕ, ◌+◌, ◌<◌, ◌≤◌, ◌^◌, List, [], ◌++◌, length, Err, OnOk, OnErr};

use crate::fault::ReadFault;
use crate::object_reader::ObjectReader;
use ep_defs::Item;
use std::alloc::{AllocError, Global};
use std::mem::swap;

/// Reads a stream that comes in any pieces, and hands out its items. A reader stands for the bytes that it was fed.
///
/// It keeps what an `ObjectReader` keeps, and the items of one object besides.
#[derive(Drop)]
pub struct TraceReader {
    objects: ObjectReader<Vec<Item>>,
    // The items of the object that ended last, until they are given.
    told: Vec<Item>,
}

impl TraceReader {
    ghost use Rattle.ep_defs.specs.declared.item.Item.{Item};
    ghost use Rattle.nt_blocks.specs.Refusals.{Refusal};
    ghost use Rattle.nt_blocks.specs.Verdict.{Bad, verdict};
    ghost use Rattle.nt_read.specs.declared.fault.ReadFault.TheVariants.{OutOfMemory};
    ghost use Rattle.nt_read.specs.Answers.{Gives, GivesPart, IsKept, StaysRefused, answer_of, end_answer, items_of};
    ghost use Rattle.nt_read.specs.Reading.{HasFailed, HasRead, used};

    /// A reader that was fed nothing. It takes no memory.
    pub fn new(alloc: Global) -> TraceReader
        ensures read { HasRead [] result }
        ensures used { used result ≡ 0 }
    {
        TraceReader {
            objects: ObjectReader::new(alloc),
            told: Vec::new(alloc),
        }
    }

    /// Reads the next piece of the stream, and appends the items of the objects that end in it. Offsets are counted
    /// from the stream's first byte.
    ///
    /// A unit is refused as soon as all its bytes are there; the items of the objects before it are appended. Where it
    /// is out of memory the first of the items are appended. After a fault the reader takes nothing, and answers the
    /// same fault from then on.
    pub fn feed(&mut self, piece: &[u8], items: &mut Vec<Item>) -> Result<(), ReadFault>
        requires { used self.old + length piece.now < 2 ^ 63 }
        ensures read { IsKept result → (bytes : List ℕ) → HasRead bytes self.old
            → HasRead (bytes ++ piece.now) self.new }
        ensures items { IsKept result → (bytes : List ℕ) → HasRead bytes self.old
            → Gives (items_of (verdict bytes)) (items_of (verdict (bytes
            ++ piece.now))) items.old.items items.new.items }
        ensures answer { IsKept result → (bytes : List ℕ) → HasRead bytes self.old
            → result ≡ answer_of (verdict (bytes ++ piece.now)) }
        ensures stays { (bytes : List ℕ) (why : Refusal) (told : List Item)
            → HasRead bytes self.old → verdict bytes ≡ Bad why told
            → StaysRefused why told (bytes ++ piece.now) result items.old.items items.new.items }
        ensures part { result ≡ Err OutOfMemory → (bytes : List ℕ) → HasRead bytes self.old
            → GivesPart (items_of (verdict bytes)) (items_of (verdict (bytes
            ++ piece.now))) items.old.items items.new.items }
        ensures memory { result ≡ Err OutOfMemory → HasFailed self.new }
        ensures fails { HasFailed self.old
            → (result ≡ Err OutOfMemory) × (items.new.items ≡ items.old.items) }
        ensures used { used self.new ≤ used self.old + length piece.now }
    {
        let mut here = 0;
        loop {
            here += self.objects.feed(&piece[here..], &mut self.told)?;
            match give(&mut self.told, items) {
                Ok(()) => {}
                Err(AllocError) => return Err(self.objects.give_up()),
            }
            if here == piece.len() {
                return Ok(());
            }
        }
    }

    /// Whether the bytes are a whole stream: else the refusal that `feed` answered, or Truncated at their number.
    pub fn finish(&self) -> Result<(), ReadFault>
        ensures read { (bytes : List ℕ) → HasRead bytes self.now
            → result ≡ end_answer (length bytes) (verdict bytes) }
        ensures fails { HasFailed self.now → result ≡ Err OutOfMemory }
    {
        self.objects.finish()
    }
}

// Gives the items of an object after those that are there.
fn give(told: &mut Vec<Item>, items: &mut Vec<Item>) -> Result<(), AllocError>
    ensures ok { OnOk result (items.new.items ≡ items.old.items ++ told.old.items) }
    ensures err { OnErr result (items.new.items ≡ items.old.items) }
{
    if items.is_empty() {
        // the usual case: no item is copied
        swap(items, told);
        return Ok(());
    }
    items.append(told)
}
