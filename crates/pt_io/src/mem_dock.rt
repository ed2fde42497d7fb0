//! A dock in memory.
ghost use Rattle.std.specs.Prelude.{◌≡◌, ◌+◌, ◌^◌, ◌<◌, ◌≤◌, ◌↔◌, [], ◌∷◌, length, IsTrue, IsErr, OnOk, OnErr, All, Contains};
ghost use Rattle.pt_io.specs.Faults.{HasRisen};
ghost use Rattle.pt_io.specs.Arrivals.{IfLink, OnNoLink, OnQuiet, OnClosed};
ghost use Rattle.pt_io.specs.Memory.{DockState, IsUnused, fresh_dock, is_over, after_quiet, after_arrival, after_closed, after_failed_turn};

use crate::calls::count_call;
use crate::dock::{Arrival, Dock};
use crate::mem_link::MemLink;
use crate::source::Failed;
use std::collections::VecDeque;
use std::marker::Model;

/// A dock that has some quiet turns, then gives links of memory in their order and is closed then. It fails at the
/// calls that it is told. It greets nobody.
#[derive(Debug, Drop)]
pub struct MemDock {
    quiet: u32,
    links: VecDeque<MemLink>,
    fails: Vec<u64>,
    calls: u64,
    arrivals: u64,
    quiets: u64,
    faults: u64,
}

impl Model for MemDock {
    ghost Value = { DockState };

    ghost view = { λ s. record {
      quiet = s.quiet;
      links = s.links.items;
      fails = s.fails.items;
      calls = s.calls;
      arrivals = s.arrivals;
      quiets = s.quiets;
      faults = s.faults;
    } };

    ghost invariant = { λ s. (All IsUnused s.links.items)
        × (s.arrivals + length s.links.items < 2 ^ 64) × (s.quiets + s.quiet < 2 ^ 64) };
}

impl MemDock {
    /// A dock of this many quiet turns and these links. `fails` are the numbers, from 1, of the calls that fail.
    pub fn new(links: VecDeque<MemLink>, quiet: u32, fails: Vec<u64>) -> MemDock
        requires { All IsUnused links.items }
        ensures { result ≡ fresh_dock links.items quiet fails.items }
    {
        MemDock {
            quiet,
            links,
            fails,
            calls: 0,
            arrivals: 0,
            quiets: 0,
            faults: 0,
        }
    }
}

impl Dock for MemDock {
    type Link = MemLink;

    ghost greeting = { λ _. [] };

    ghost arrivals = { λ s. s.arrivals };

    ghost quiets = { λ s. s.quiets };

    ghost dock_faults = { λ s. s.faults };

    ghost is_closed = { is_over };

    /// A quiet turn, else the next link, else that nobody will come. It fails where its number is one of `fails`.
    fn next(&mut self) -> Result<Arrival<MemLink>, Failed>
        ensures fails { IsErr result ↔ Contains self.old.fails (self.old.calls + 1) }
        ensures turn { OnQuiet result ((0 < self.old.quiet) × (self.new ≡ after_quiet self.old)) }
        ensures link { IfLink result (λ link. (self.old.quiet ≡ 0)
            × (self.old.links ≡ link ∷ self.new.links) × (self.new ≡ after_arrival self.old)) }
        ensures over { OnClosed result (IsTrue (is_over self.old) × (self.new ≡ after_closed self.old)) }
        ensures after_err { OnErr result (self.new ≡ after_failed_turn self.old) }

        // What the trait says.
        ensures fresh { IfLink result IsUnused }
        ensures arrived { IfLink result (λ _. self.new.arrivals ≡ self.old.arrivals + 1) }
        ensures no_link { OnNoLink result (self.new.arrivals ≡ self.old.arrivals) }
        ensures quiet { OnQuiet result (self.old.quiets < self.new.quiets) }
        ensures quiets { self.old.quiets ≤ self.new.quiets }
        ensures failed { OnErr result (HasRisen self.old.faults self.new.faults) }
        ensures answered { OnOk result (self.new.faults ≡ self.old.faults) }
        ensures later { self.old.faults ≤ self.new.faults }
        ensures closed { OnClosed result (IsTrue (is_over self.new)) }
        ensures stays { IsTrue (is_over self.old) → IsTrue (is_over self.new) }
    {
        if count_call(&mut self.calls, &self.fails) {
            self.faults = self.faults.saturating_add(1);
            return Err(Failed);
        }
        if self.quiet > 0 {
            self.quiet -= 1;
            self.quiets += 1;
            return Ok(Arrival::Quiet);
        }
        let Some(link) = self.links.pop_front() else {
            return Ok(Arrival::Closed);
        };
        self.arrivals += 1;
        Ok(Arrival::Link(link))
    }
}
