//! What is counted: names, stacks and events, in the order in which they are printed.
ghost use Rattle.std.specs.Prelude.{◌≡◌, List, IfOk};
ghost use Rattle.std.specs.Ordering.{as_partial_cmp};
ghost use Rattle.std.specs.Cmp.Lexicographic.{slice_cmp, slice_partial_cmp, pointwise, lists_equiv, lists_per, lists_po, lists_total, lists_agrees, lists_ties};
ghost use Rattle.ep_defs.specs.declared.event.EventDef.{EventDef};

use ep_defs::{Duplicate, EventDef, copies};
use std::alloc::{AllocError, Global};
use std::cmp::Ordering;
use std::marker::Model;

/// Units or bytes in the order of a dictionary. Contracts see the list of them.
#[derive(Drop)]
pub struct Text<I> {
    items: Vec<I>,
}

impl<I> Model for Text<I> {
    ghost Value = { List I };

    ghost view = { λ text. text.items.items };
}

impl<I> Text<I> {
    pub fn as_slice(&self) -> &[I]
        ensures { result.now ≡ self.now }
    {
        self.items.as_slice()
    }
}

impl<I: Duplicate + Drop> Text<I> {
    /// A text of these.
    pub fn of(alloc: Global, items: &[I]) -> Result<Self, AllocError>
        ensures { IfOk result (λ text. text ≡ items.now) }
    {
        let items = copies(alloc, items)?;
        Ok(Text { items })
    }
}

impl<I: PartialEq> PartialEq for Text<I> {
    ghost eq = { pointwise I.eq };

    ghost laws = { lists_per I.laws };

    fn eq(&self, other: &Self) -> bool {
        self.items.as_slice() == other.items.as_slice()
    }
}

impl<I: Eq> Eq for Text<I> {
    ghost laws = { lists_equiv I.Eq.laws };
}

impl<I: PartialOrd> PartialOrd for Text<I> {
    ghost partial_cmp = { slice_partial_cmp I.partial_cmp };

    ghost laws = { lists_po I.PartialOrd.laws };

    fn partial_cmp(&self, other: &Self) -> Option<Ordering> {
        self.items.as_slice().partial_cmp(other.items.as_slice())
    }
}

impl<I: Ord> Ord for Text<I> {
    ghost cmp = { slice_cmp I.cmp };

    ghost total = { lists_total I.total };

    ghost matches_partial_cmp = { lists_agrees I.matches_partial_cmp };

    ghost matches_eq = { lists_ties I.cmp I.matches_eq };

    fn cmp(&self, other: &Self) -> Ordering {
        self.items.as_slice().cmp(other.items.as_slice())
    }
}

impl<I: Duplicate + Drop> Duplicate for Text<I> {
    fn copy(&self, alloc: Global) -> Result<Self, AllocError> {
        Text::of(alloc, self.as_slice())
    }
}

/// What events are counted by.
#[derive(PartialEq, Eq, Drop)]
pub struct EventKey {
    pub provider: Text<u16>,
    pub id: u32,
    pub version: u32,
    pub name: Text<u16>,
}

impl EventKey {
    ghost use Rattle.pt_report.specs.Keys.{key_of};

    /// What the events of this definition are counted by.
    pub fn of(alloc: Global, def: &EventDef) -> Result<EventKey, AllocError>
        ensures { IfOk result (λ key. key ≡ key_of def.now) }
    {
        let provider = Text::of(alloc, def.provider.as_slice())?;
        let name = Text::of(alloc, def.name.as_slice())?;
        Ok(EventKey {
            provider,
            id: def.id,
            version: def.version,
            name,
        })
    }
}

impl Duplicate for EventKey {
    fn copy(&self, alloc: Global) -> Result<Self, AllocError> {
        let provider = self.provider.copy(alloc)?;
        let name = self.name.copy(alloc)?;
        Ok(EventKey {
            provider,
            id: self.id,
            version: self.version,
            name,
        })
    }
}

impl PartialOrd for EventKey {
    ghost use Rattle.std.proofs.Common.{rules};
    ghost use Rattle.std.specs.Cmp.{partial_order_from_own_ties, partial_order_from_total};
    ghost use Rattle.std.specs.Cmp.Rules.{comparing};
    ghost use Rattle.std.specs.Ordering.{as_partial_cmp};
    ghost use Rattle.pt_report.specs.Keys.{key_order};

    ghost partial_cmp = { as_partial_cmp key_order };

    ghost laws = { partial_order_from_own_ties (partial_order_from_total {R = key_order} (Prim.search (comparing, rules))) (Prim.search (comparing, rules)) };

    fn partial_cmp(&self, other: &Self) -> Option<Ordering> {
        Some(self.cmp(other))
    }
}

impl Ord for EventKey {
    ghost use Rattle.std.proofs.Common.{rules};
    ghost use Rattle.std.specs.Cmp.Rules.{comparing};
    ghost use Rattle.pt_report.specs.Keys.{key_order};

    ghost cmp = { key_order };

    ghost total = { Prim.search (comparing, rules) };

    ghost matches_partial_cmp = { Prim.search (comparing, rules) };

    ghost matches_eq = { Prim.search (comparing, rules) };

    fn cmp(&self, other: &Self) -> Ordering {
        self.provider
            .cmp(&other.provider)
            .then_with(|| self.id.cmp(&other.id))
            .then_with(|| self.version.cmp(&other.version))
            .then_with(|| self.name.cmp(&other.name))
    }
}
