//! The report of a stream's items.
ghost use Rattle.std.specs.Prelude.{◌≡◌, ◌↔◌, ℕ, true, false, [], ◌∷◌, ◌++◌, List, Ok, Err, IfOk, OnOk, OnErr};
ghost use Rattle.ep_defs.specs.declared.item.ItemKind.{ItemKind};
ghost use Rattle.ep_defs.specs.Entry.{Entry};
ghost use Rattle.nt_blocks.specs.Ordered.{no_names, told_after};
ghost use Rattle.nt_check.specs.declared.checker.CheckKind.{CheckKind};
ghost use Rattle.nt_check.specs.declared.checker.CheckFault.TheVariants.{Bad, OutOfMemory};
ghost use Rattle.nt_check.specs.Events.{EventRest, event_item};
ghost use Rattle.nt_check.specs.Faults.{disorder_of};

use crate::counters::Counters;
use crate::lines;
use ep_defs::ItemKind;
use nt_check::{CheckFault, Checker, EventNames};
use std::alloc::{AllocError, Global};

/// What the items of a stream come to.
#[derive(Drop)]
pub struct Report {
    alloc: Global,
    checker: Checker,
    counters: Counters,
    failed: bool,
}

impl Report {
    ghost use Rattle.pt_report.specs.state.Taken.{HasTaken, has_failed};
    ghost use Rattle.pt_report.specs.Report.{report_text};

    /// A report of no items. It takes no memory.
    pub fn new(alloc: Global) -> Report
        ensures { HasTaken [] result }
    {
        Report {
            alloc,
            checker: Checker::new(alloc),
            counters: Counters::new(alloc),
            failed: false,
        }
    }

    /// Takes one more item. It is refused exactly where it can't stand after the items that were taken, and then the
    /// report is one of the same items. A report that found no memory answers so from then on.
    pub fn item(&mut self, kind: &ItemKind) -> Result<(), CheckFault>
        ensures taken { OnOk result ((kinds : List ItemKind) → HasTaken kinds self.old
            → HasTaken (kinds ++ kind.now ∷ []) self.new) }
        ensures refused { (kinds : List ItemKind) → HasTaken kinds self.old → (fault : CheckKind)
            → (result ≡ Err (Bad fault))
            ↔ (told_after no_names (kinds ++ kind.now ∷ []) ≡ Err (disorder_of fault)) }
        ensures unchanged { (kinds : List ItemKind) → (fault : CheckKind) → HasTaken kinds self.old
            → result ≡ Err (Bad fault) → HasTaken kinds self.new }
        ensures stays { has_failed self.old ≡ true
            → (result ≡ Err OutOfMemory) × (has_failed self.new ≡ true) }
        ensures failed { result ≡ Err OutOfMemory → has_failed self.new ≡ true }
    {
        if self.failed {
            return Err(CheckFault::OutOfMemory);
        }
        if let Err(fault) = self.checker.item(kind) {
            self.failed = fault == CheckFault::OutOfMemory;
            return Err(fault);
        }
        if self.counters.count(self.alloc, kind).is_err() {
            self.failed = true;
            return Err(CheckFault::OutOfMemory);
        }
        Ok(())
    }

    /// Takes one more event, as `item` takes it, of which what it names is enough.
    #[inline(always)]
    pub(crate) fn event(&mut self, event: &EventNames) -> Result<(), CheckFault>
        ensures taken { OnOk result ((kinds : List ItemKind) → HasTaken kinds self.old → (rest : EventRest)
            → HasTaken (kinds ++ event_item event.now rest ∷ []) self.new) }
        ensures refused { (kinds : List ItemKind) → HasTaken kinds self.old → (rest : EventRest) → (fault : CheckKind)
            → (result ≡ Err (Bad fault))
            ↔ (told_after no_names (kinds ++ event_item event.now rest ∷ []) ≡ Err (disorder_of fault)) }
    {
        if self.failed {
            return Err(CheckFault::OutOfMemory);
        }
        let is_first = match self.checker.event(event) {
            Ok(is_first) => is_first,
            Err(CheckFault::Bad(kind)) => return Err(CheckFault::Bad(kind)),
            Err(CheckFault::OutOfMemory) => return Err(self.fail()),
        };
        if self
            .counters
            .count_event(self.alloc, event, is_first)
            .is_err()
        {
            return Err(self.fail());
        }
        Ok(())
    }

    // It has found no memory.
    #[inline(never)]
    fn fail(&mut self) -> CheckFault
        ensures { result ≡ OutOfMemory }
    {
        self.failed = true;
        CheckFault::OutOfMemory
    }

    /// The report of the items that were taken.
    pub fn print(&self) -> Result<Vec<u8>, AllocError>
        ensures { IfOk result (λ text. (kinds : List ItemKind) → (entries : List Entry)
            → HasTaken kinds self.now → told_after no_names kinds ≡ Ok entries
            → text.items ≡ report_text kinds entries) }
    {
        let mut out = Vec::new(self.alloc);
        let counters = &self.counters;
        lines::put_trace(&mut out, &counters.trace)?;
        lines::put_items(&mut out, &counters.totals)?;
        lines::put_providers(&mut out, &counters.events.providers)?;
        lines::put_events(&mut out, &counters.events.events)?;
        lines::put_threads(&mut out, &counters.threads, &self.checker)?;
        lines::put_stacks(&mut out, self.alloc, &counters.stacks.uses)?;
        Ok(out)
    }
}
