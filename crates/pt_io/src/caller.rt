//! A way to peers.
ghost use Rattle.std.specs.Prelude.{◌≡◌, ℕ, ◌+◌, ◌≤◌, List, [], IfOk, OnOk, OnErr};
ghost use Rattle.pt_io.specs.Faults.{HasRisen};

use crate::link::Link;
use crate::source::Failed;

/// A way to peers, each named by its target.
pub trait Caller: Send {
    type Link: Link;

    /// Whether a link, as it was given, is one that a call of this target gave.
    ghost leads_to: { List ℕ → Self.Link → Type 0 };

    /// How many links it gave.
    ghost links: { Self → ℕ };

    /// How often a call has failed.
    ghost call_faults: { Self → ℕ };

    /// A link to the target, which was not used yet.
    fn call(&mut self, target: &str) -> Result<Self::Link, Failed>
        ensures target { IfOk result (λ link. leads_to target.now link) }
        ensures fresh_given { IfOk result (λ link. Self.Link.given link ≡ []) }
        ensures fresh_taken { IfOk result (λ link. Self.Link.taken link ≡ []) }
        ensures fresh_reads { IfOk result (λ link. Self.Link.read_faults link ≡ 0) }
        ensures fresh_writes { IfOk result (λ link. Self.Link.write_faults link ≡ 0) }

        // The counts.
        ensures counted { OnOk result (links self.new ≡ links self.old + 1) }
        ensures uncounted { OnErr result (links self.new ≡ links self.old) }
        ensures failed { OnErr result (HasRisen (call_faults self.old) (call_faults self.new)) }
        ensures called { OnOk result (call_faults self.new ≡ call_faults self.old) }
        ensures later { call_faults self.old ≤ call_faults self.new };
}
