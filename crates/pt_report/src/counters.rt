//! What the items of a stream come to.
ghost use Rattle.std.specs.Prelude.{◌≡◌, ℕ, false, [], ◌∷◌, ◌++◌, List, map, Ok, OnOk, IsSome};
ghost use Rattle.std.specs.Ordering.{nat_cmp};
ghost use Rattle.ep_defs.specs.declared.item.ItemKind.{ItemKind};
ghost use Rattle.ep_defs.specs.Entry.{Entry};
ghost use Rattle.nt_blocks.specs.Ordered.{no_names, tell};
ghost use Rattle.nt_check.specs.Numbers.{numbers_of};
ghost use Rattle.nt_check.specs.state.Took.{names_at};
ghost use Rattle.std.specs.List.{flat_map};
ghost use Rattle.pt_report.specs.Report.{threads_in};
ghost use Rattle.pt_report.specs.state.Counts.{Counts};
ghost use Rattle.pt_report.specs.state.Shows.{CountsEvent, Shows, with_total};

use crate::events::Events;
use crate::stacks::Stacks;
use crate::tally::Tally;
use ep_defs::{ItemKind, TraceInfo};
use nt_check::EventNames;
use std::alloc::{AllocError, Global};

/// How many items of each kind there are, each held at the greatest count.
#[derive(Clone, Copy)]
pub struct Totals {
    pub events: u64,
    pub metadata: u64,
    pub stacks: u64,
    pub points: u64,
}

impl Totals {
    // One item more.
    fn after(&self, kind: &ItemKind) -> Totals
        ensures { result ≡ with_total self.now kind.now }
    {
        let mut totals = *self;
        match kind {
            ItemKind::Trace { .. } => {}
            ItemKind::Meta { .. } => totals.metadata = totals.metadata.saturating_add(1),
            ItemKind::Stack { .. } => totals.stacks = totals.stacks.saturating_add(1),
            ItemKind::Event { .. } => totals.events = totals.events.saturating_add(1),
            ItemKind::Point { .. } => totals.points = totals.points.saturating_add(1),
        }
        totals
    }
}

/// What is counted of the items that were taken.
#[derive(Drop)]
pub struct Counters {
    pub trace: Option<TraceInfo>,
    pub totals: Totals,
    pub events: Events,
    pub threads: Tally<u64>,
    pub stacks: Stacks,
}

impl Counters {
    pub fn new(alloc: Global) -> Counters
        ensures { Shows [] [] result }
    {
        Counters {
            trace: None,
            totals: Totals {
                events: 0,
                metadata: 0,
                stacks: 0,
                points: 0,
            },
            events: Events::new(alloc),
            threads: Tally::new(alloc),
            stacks: Stacks::new(alloc),
        }
    }

    /// One event more, which can stand where it does, of which what it names is enough. Its thread need not be named
    /// again where the items before it tell something of it. Where it is out of memory, a part of it may be counted.
    #[inline(always)]
    pub fn count_event(
        &mut self,
        alloc: Global,
        event: &EventNames,
        is_first: bool,
    ) -> Result<(), AllocError>
        ensures { OnOk result (CountsEvent event.now is_first self.old self.new) }
    {
        self.totals.events = self.totals.events.saturating_add(1);
        name_one(&mut self.threads, event.capture, is_first)?;
        self.stacks.count(alloc, event.stack)?;
        self.events.count(event.metadata);
        Ok(())
    }

    /// One item more, which can stand where it does. Where it is out of memory, a part of the item may be counted.
    pub fn count(&mut self, alloc: Global, kind: &ItemKind) -> Result<(), AllocError>
        ensures { OnOk result ((kinds : List ItemKind) → (entries : List Entry)
            → (more : List Entry) → Shows kinds entries self.old
            → tell (names_at no_names kinds) kind.now ≡ Ok more
            → Shows (kinds ++ kind.now ∷ []) (entries ++ more) self.new) }
    {
        self.totals = self.totals.after(kind);
        match kind {
            ItemKind::Trace { info } => {
                if self.trace.is_none() {
                    self.trace = Some(*info);
                }
                Ok(())
            }
            ItemKind::Meta { id, def } => self.events.define(alloc, *id, def),
            ItemKind::Stack { id, bytes } => self.stacks.define(alloc, *id, bytes.as_slice()),
            ItemKind::Event {
                metadata,
                capture,
                stack,
                ..
            } => {
                self.threads.name(*capture)?;
                self.stacks.count(alloc, *stack)?;
                self.events.count(*metadata);
                Ok(())
            }
            ItemKind::Point { threads, .. } => {
                name_all(&mut self.threads, threads.as_slice())?;
                self.stacks.clear();
                Ok(())
            }
        }
    }
}

// Names the thread of an event, unless the items before it name it.
#[inline(always)]
fn name_one(tally: &mut Tally<u64>, thread: u64, is_first: bool) -> Result<(), AllocError>
    ensures { OnOk result ((kinds : List ItemKind) → (is_first ≡ false → IsSome (numbers_of thread kinds))
        → Counts nat_cmp (flat_map threads_in kinds) [] tally.old
        → Counts nat_cmp (flat_map threads_in kinds ++ thread ∷ []) [] tally.new) }
{
    if is_first {
        tally.name(thread)?;
    }
    Ok(())
}

// Names the threads of a point.
fn name_all(tally: &mut Tally<u64>, threads: &[(u64, u32)]) -> Result<(), AllocError>
    ensures { OnOk result ((names : List ℕ) → Counts nat_cmp names [] tally.old
        → Counts nat_cmp (names ++ map (λ thread. thread.0) threads.now) [] tally.new) }
{
    for (thread, _) in threads {
        tally.name(*thread)?;
    }
    Ok(())
}
