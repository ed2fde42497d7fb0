//! A stream that is read and reported piece by piece.
ghost use Rattle.std.specs.Prelude.{◌≡◌, ◌+◌, ◌^◌, ◌<◌, ◌≤◌, ◌++◌, ℕ, [], ◌∷◌, List, length, take, IfOk, OnOk};
ghost use Rattle.ep_defs.specs.declared.item.Item.{Item};
ghost use Rattle.nt_check.specs.Events.{EventRest};
ghost use Rattle.nt_names.specs.Told.{AreEvents, item_of};
ghost use Rattle.nt_read.specs.Names.{TellsNames};
ghost use Rattle.nt_read.specs.Objects as objects;
ghost use Rattle.pt_report.specs.state.Read.{IsChecked, IsFed, HasRead, IsOutcome, used};

use crate::errors::{Flaw, Refusal};
use crate::report::Report;
use ep_defs::Item;
use nt_check::{CheckFault, CheckKind};
use nt_names::EventAt;
use nt_read::{NamesReader, ReadFault, Told};
use pt_command::Reads;
use std::alloc::{AllocError, Global};

/// The first item that can't stand where it does.
#[derive(Clone, Copy)]
pub(crate) struct Misplaced {
    at: u64,
    kind: CheckKind,
}

/// What the bytes of a stream come to.
#[derive(Drop)]
pub(crate) enum Outcome {
    Report(Vec<u8>),
    Refused(Refusal),
}

/// What was read of a stream: where the reader stands, and the report of the items that it told.
#[derive(Drop)]
pub(crate) struct Reading {
    alloc: Global,
    reader: NamesReader,
    report: Report,
    // What an object tells. It is kept, so that its memory serves again.
    told: Told,
    misplaced: Option<Misplaced>,
}

impl Reading {
    pub(crate) fn new(alloc: Global) -> Reading
        ensures read { HasRead [] result }
        ensures unused { used result ≡ 0 }
    {
        Reading {
            alloc,
            reader: NamesReader::new(alloc),
            report: Report::new(alloc),
            told: Told::new(alloc),
            misplaced: None,
        }
    }

    /// What the bytes that were read come to, where they are all of the stream.
    pub(crate) fn outcome(&self) -> Result<Outcome, AllocError>
        ensures { IfOk result (λ outcome. (bytes : List ℕ) → HasRead bytes self.now
            → IsOutcome bytes outcome) }
    {
        if let Some(Misplaced { at, kind }) = self.misplaced {
            let flaw = Flaw::Check(kind);
            return Ok(Outcome::Refused(Refusal { at, flaw }));
        }
        match self.reader.finish() {
            Ok(()) => Ok(Outcome::Report(self.report.print()?)),
            Err(ReadFault::Bad { at, kind }) => {
                let flaw = Flaw::Read(kind);
                Ok(Outcome::Refused(Refusal { at, flaw }))
            }
            Err(ReadFault::OutOfMemory) => Err(AllocError),
        }
    }
}

impl Reads for Reading {
    ghost has_read = { HasRead };

    ghost used = { used };

    /// Reads the next piece of the stream. Where its bytes are refused, reading ends there, and what follows changes
    /// nothing.
    fn take(&mut self, piece: &[u8]) -> Result<(), AllocError> {
        let mut here = 0;
        while here < piece.len() {
            here += feed(&mut self.reader, &piece[here..], &mut self.told)?;
            check_all(&mut self.report, &self.told, &mut self.misplaced)?;
        }
        Ok(())
    }
}

// Feeds a reader up to the end of an object, or all of the piece, whether or not the bytes are refused.
fn feed(reader: &mut NamesReader, piece: &[u8], told: &mut Told) -> Result<usize, AllocError>
    requires few { objects.used reader.old + length piece.now < 2 ^ 63 }
    ensures read { IfOk result (λ n. (bytes : List ℕ) → objects.HasRead TellsNames bytes reader.old
        → IsFed bytes (take n piece.now) reader.new told.new) }
    ensures within { IfOk result (λ n. n ≤ length piece.now) }
    ensures some { IfOk result (λ n. 0 < length piece.now → 0 < n) }
    ensures used { IfOk result (λ n. objects.used reader.new ≤ objects.used reader.old + n) }
{
    match reader.feed(piece, told) {
        Ok(count) => Ok(count),
        Err(ReadFault::Bad { .. }) => Ok(piece.len()),
        Err(ReadFault::OutOfMemory) => Err(AllocError),
    }
}

// Gives a report what an object tells, up to the first item that can't stand where it does.
fn check_all(
    report: &mut Report,
    told: &Told,
    misplaced: &mut Option<Misplaced>,
) -> Result<(), AllocError>
    ensures { (before items : List Item) → TellsNames told.now items → IsChecked before report.old misplaced.old
        → OnOk result (IsChecked (before ++ items) report.new misplaced.new) }
{
    check_items(report, told.items.as_slice(), misplaced)?;
    check_events(report, told.events.as_slice(), misplaced)
}

fn check_items(
    report: &mut Report,
    items: &[Item],
    misplaced: &mut Option<Misplaced>,
) -> Result<(), AllocError>
    ensures { (before : List Item) → IsChecked before report.old misplaced.old
        → OnOk result (IsChecked (before ++ items.now) report.new misplaced.new) }
{
    for item in items {
        check(report, item, misplaced)?;
    }
    Ok(())
}

fn check(
    report: &mut Report,
    item: &Item,
    misplaced: &mut Option<Misplaced>,
) -> Result<(), AllocError>
    ensures { (before : List Item) → IsChecked before report.old misplaced.old
        → OnOk result (IsChecked (before ++ item.now ∷ []) report.new misplaced.new) }
{
    if misplaced.is_some() {
        return Ok(());
    }
    match report.item(&item.kind) {
        Ok(()) => {}
        Err(CheckFault::Bad(kind)) => *misplaced = Some(Misplaced { at: item.at, kind }),
        Err(CheckFault::OutOfMemory) => return Err(AllocError),
    }
    Ok(())
}

fn check_events(
    report: &mut Report,
    events: &[EventAt],
    misplaced: &mut Option<Misplaced>,
) -> Result<(), AllocError>
    ensures { (before items : List Item) → AreEvents events.now items
        → IsChecked before report.old misplaced.old
        → OnOk result (IsChecked (before ++ items) report.new misplaced.new) }
{
    for event in events {
        check_event(report, event, misplaced)?;
    }
    Ok(())
}

#[inline(always)]
fn check_event(
    report: &mut Report,
    event: &EventAt,
    misplaced: &mut Option<Misplaced>,
) -> Result<(), AllocError>
    ensures { (before : List Item) (rest : EventRest) → IsChecked before report.old misplaced.old
        → OnOk result (IsChecked (before ++ item_of event.now rest ∷ []) report.new misplaced.new) }
{
    if misplaced.is_some() {
        return Ok(());
    }
    match report.event(&event.names) {
        Ok(()) => {}
        Err(CheckFault::Bad(kind)) => *misplaced = Some(Misplaced { at: event.at, kind }),
        Err(CheckFault::OutOfMemory) => return Err(AllocError),
    }
    Ok(())
}
