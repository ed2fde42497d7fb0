//! A stream that is read and listed piece by piece.
ghost use Rattle.std.specs.Prelude.{◌≡◌, ◌+◌, ◌^◌, ◌<◌, ◌≤◌, ◌++◌, ℕ, [], ◌∷◌, List, length, take, IfOk, OnOk};
ghost use Rattle.ep_defs.specs.declared.item.Item.{Item};
ghost use Rattle.nt_blocks.specs.Placed.{items_in};
ghost use Rattle.nt_read.specs.Lent.{TellsInPlace, told_by};
ghost use Rattle.nt_read.specs.Objects as objects;
ghost use Rattle.pt_lines.specs.Appends.{Appends};
ghost use Rattle.pt_events.specs.state.Read.{IsChecked, IsFed, HasRead, EndsSo, item_of, used};

use crate::listing::Listing;
use ep_defs::Item;
use nt_blocks::{BodyEvent, EventBody};
use nt_check::{CheckFault, CheckKind};
use nt_read::{Lent, LentReader, ReadFault};
use pt_lines::Form;
use pt_report::{Flaw, Refusal};
use std::alloc::{AllocError, Global};

/// The first item that can't stand where it does.
#[derive(Clone, Copy)]
pub struct Misplaced {
    at: u64,
    kind: CheckKind,
}

/// What was read of a stream: where the reader stands, and what is kept of the items that were listed.
#[derive(Drop)]
pub struct Reading {
    reader: LentReader,
    listing: Listing,
    // What an object tells. It is kept, so that its memory serves again.
    lent: Lent,
    misplaced: Option<Misplaced>,
}

impl Reading {
    /// Nothing was read. It takes no memory.
    pub fn new(alloc: Global) -> Reading
        ensures read { (form : Form) → HasRead form [] [] result }
        ensures used { used result ≡ 0 }
    {
        Reading {
            reader: LentReader::new(alloc),
            listing: Listing::new(alloc),
            lent: Lent::new(alloc),
            misplaced: None,
        }
    }

    /// Reads the next piece of the stream, and appends the lines of the items that it tells. Where its bytes or an item are
    /// refused, what follows changes nothing.
    pub fn take(&mut self, form: Form, piece: &[u8], out: &mut Vec<u8>) -> Result<(), AllocError>
        requires { used self.old + length piece.now < 2 ^ 63 }
        ensures read { (bytes text : List ℕ) → HasRead form bytes text self.old
            → OnOk result (Appends (λ more. HasRead form (bytes ++ piece.now) (text ++ more) self.new)
            out.old.items out.new.items) }
        ensures used { used self.new ≤ used self.old + length piece.now }
    {
        let mut here = 0;
        while here < piece.len() {
            here += feed(&mut self.reader, &piece[here..], &mut self.lent)?;
            list_all(
                &mut self.listing,
                form,
                &self.lent,
                &mut self.misplaced,
                out,
            )?;
        }
        Ok(())
    }

    /// What is wrong with the bytes that were read, where they are all of the stream.
    pub fn end(&self) -> Result<Option<Refusal>, AllocError>
        ensures { IfOk result (λ refusal. (form : Form) (bytes text : List ℕ) → HasRead form bytes text self.now
            → EndsSo form bytes text refusal) }
    {
        if let Some(misplaced) = self.misplaced {
            let flaw = Flaw::Check(misplaced.kind);
            return Ok(Some(Refusal {
                at: misplaced.at,
                flaw,
            }));
        }
        match self.reader.finish() {
            Ok(()) => Ok(None),
            Err(ReadFault::Bad { at, kind }) => {
                let flaw = Flaw::Read(kind);
                Ok(Some(Refusal { at, flaw }))
            }
            Err(ReadFault::OutOfMemory) => Err(AllocError),
        }
    }
}

// Feeds a reader up to the end of an object, or all of the piece, whether or not the bytes are refused.
fn feed(reader: &mut LentReader, piece: &[u8], lent: &mut Lent) -> Result<usize, AllocError>
    requires few { objects.used reader.old + length piece.now < 2 ^ 63 }
    ensures read { IfOk result (λ n. (bytes : List ℕ) → objects.HasRead TellsInPlace bytes reader.old
        → IsFed bytes (take n piece.now) reader.new lent.new) }
    ensures within { IfOk result (λ n. n ≤ length piece.now) }
    ensures some { IfOk result (λ n. 0 < length piece.now → 0 < n) }
    ensures used { IfOk result (λ n. objects.used reader.new ≤ objects.used reader.old + n) }
    ensures used_all { objects.used reader.new ≤ objects.used reader.old + length piece.now }
{
    match reader.feed(piece, lent) {
        Ok(count) => Ok(count),
        Err(ReadFault::Bad { .. }) => Ok(piece.len()),
        Err(ReadFault::OutOfMemory) => Err(AllocError),
    }
}

// Lists what an object tells, up to the first item that can't stand where it does.
fn list_all(
    listing: &mut Listing,
    form: Form,
    lent: &Lent,
    misplaced: &mut Option<Misplaced>,
    out: &mut Vec<u8>,
) -> Result<(), AllocError>
    ensures { (before : List Item) (text : List ℕ) → IsChecked form before text listing.old misplaced.old
        → OnOk result (Appends (λ more. IsChecked form (before ++ told_by lent.now) (text ++ more) listing.new misplaced.new)
        out.old.items out.new.items) }
{
    list_items(listing, form, lent.items.as_slice(), misplaced, out)?;
    list_events(listing, form, &lent.events, misplaced, out)
}

fn list_items(
    listing: &mut Listing,
    form: Form,
    items: &[Item],
    misplaced: &mut Option<Misplaced>,
    out: &mut Vec<u8>,
) -> Result<(), AllocError>
    ensures { (before : List Item) (text : List ℕ) → IsChecked form before text listing.old misplaced.old
        → OnOk result (Appends (λ more. IsChecked form (before ++ items.now) (text ++ more) listing.new misplaced.new)
        out.old.items out.new.items) }
{
    for item in items {
        list(listing, form, item, misplaced, out)?;
    }
    Ok(())
}

fn list(
    listing: &mut Listing,
    form: Form,
    item: &Item,
    misplaced: &mut Option<Misplaced>,
    out: &mut Vec<u8>,
) -> Result<(), AllocError>
    ensures { (before : List Item) (text : List ℕ) → IsChecked form before text listing.old misplaced.old
        → OnOk result (Appends (λ more. IsChecked form (before ++ item.now ∷ []) (text ++ more) listing.new misplaced.new)
        out.old.items out.new.items) }
{
    if misplaced.is_some() {
        return Ok(());
    }
    match listing.item(form, &item.kind, out) {
        Ok(()) => {}
        Err(CheckFault::Bad(kind)) => *misplaced = Some(Misplaced { at: item.at, kind }),
        Err(CheckFault::OutOfMemory) => return Err(AllocError),
    }
    Ok(())
}

fn list_events(
    listing: &mut Listing,
    form: Form,
    events: &EventBody,
    misplaced: &mut Option<Misplaced>,
    out: &mut Vec<u8>,
) -> Result<(), AllocError>
    ensures { (before : List Item) (text : List ℕ) → IsChecked form before text listing.old misplaced.old
        → OnOk result (Appends (λ more. IsChecked form (before ++ items_in events.now) (text ++ more) listing.new misplaced.new)
        out.old.items out.new.items) }
{
    for index in 0..events.len() {
        list_event(listing, form, &events.event(index), misplaced, out)?;
    }
    Ok(())
}

fn list_event(
    listing: &mut Listing,
    form: Form,
    event: &BodyEvent<'_>,
    misplaced: &mut Option<Misplaced>,
    out: &mut Vec<u8>,
) -> Result<(), AllocError>
    ensures { (before : List Item) (text : List ℕ) → IsChecked form before text listing.old misplaced.old
        → OnOk result (Appends (λ more. IsChecked form (before ++ item_of event.now ∷ []) (text ++ more) listing.new misplaced.new)
        out.old.items out.new.items) }
{
    if misplaced.is_some() {
        return Ok(());
    }
    match listing.event(form, event.head, event.payload, out) {
        Ok(()) => {}
        Err(CheckFault::Bad(kind)) => *misplaced = Some(Misplaced { at: event.at, kind }),
        Err(CheckFault::OutOfMemory) => return Err(AllocError),
    }
    Ok(())
}
