//! A caller in memory.
ghost use Rattle.std.specs.Prelude.{◌≡◌, ◌+◌, ◌^◌, ◌<◌, ◌≤◌, ◌⊎◌, ◌↔◌, [], ◌∷◌, length, IsErr, IfOk, OnOk, OnErr, All, Contains};
ghost use Rattle.pt_io.specs.Faults.{HasRisen};
ghost use Rattle.pt_io.specs.Memory.{CallerState, IsUnused, fresh_caller, after_call, after_failed_call};

use crate::caller::Caller;
use crate::calls::count_call;
use crate::mem_link::MemLink;
use crate::source::Failed;
use std::collections::VecDeque;
use std::marker::Model;

/// A caller that gives links of memory in their order, whatever the target, and fails at the calls that it is told.
#[derive(Debug, Drop)]
pub struct MemCaller {
    links: VecDeque<MemLink>,
    fails: Vec<u64>,
    calls: u64,
    made: u64,
    faults: u64,
}

impl Model for MemCaller {
    ghost Value = { CallerState };

    ghost view = { λ s. record {
      links = s.links.items;
      fails = s.fails.items;
      calls = s.calls;
      made = s.made;
      faults = s.faults;
    } };

    ghost invariant = { λ s. (All IsUnused s.links.items) × (s.made + length s.links.items < 2 ^ 64) };
}

impl MemCaller {
    /// A caller of these links. `fails` are the numbers, from 1, of the calls that fail.
    pub fn new(links: VecDeque<MemLink>, fails: Vec<u64>) -> MemCaller
        requires { All IsUnused links.items }
        ensures { result ≡ fresh_caller links.items fails.items }
    {
        MemCaller {
            links,
            fails,
            calls: 0,
            made: 0,
            faults: 0,
        }
    }
}

impl Caller for MemCaller {
    type Link = MemLink;

    ghost leads_to = { λ _ _. Unit {0} };

    ghost links = { λ s. s.made };

    ghost call_faults = { λ s. s.faults };

    /// Gives the next link. It fails where its number is one of `fails`, and where no link is left.
    fn call(&mut self, _target: &str) -> Result<MemLink, Failed>
        ensures fails { IsErr result
            ↔ (Contains self.old.fails (self.old.calls + 1) ⊎ (self.old.links ≡ [])) }
        ensures first { IfOk result (λ link. self.old.links ≡ link ∷ self.new.links) }
        ensures after { OnOk result (self.new ≡ after_call self.old) }
        ensures after_err { OnErr result (self.new ≡ after_failed_call self.old) }

        // What the trait says.
        ensures fresh { IfOk result IsUnused }
        ensures counted { OnOk result (self.new.made ≡ self.old.made + 1) }
        ensures uncounted { OnErr result (self.new.made ≡ self.old.made) }
        ensures failed { OnErr result (HasRisen self.old.faults self.new.faults) }
        ensures called { OnOk result (self.new.faults ≡ self.old.faults) }
        ensures later { self.old.faults ≤ self.new.faults }
    {
        if !count_call(&mut self.calls, &self.fails) {
            if let Some(link) = self.links.pop_front() {
                self.made += 1;
                return Ok(link);
            }
        }
        self.faults = self.faults.saturating_add(1);
        Err(Failed)
    }
}
