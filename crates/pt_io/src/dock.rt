//! Where peers come in.
ghost use Rattle.std.specs.Prelude.{◌≡◌, ℕ, ◌+◌, ◌<◌, ◌≤◌, Bool, List, [], IsTrue, OnOk, OnErr};
ghost use Rattle.pt_io.specs.Faults.{HasRisen};
ghost use Rattle.pt_io.specs.Arrivals.{IfLink, OnNoLink, OnQuiet, OnClosed};

use crate::link::Link;
use crate::source::Failed;

/// What a dock answers.
#[derive(Debug, Drop)]
pub enum Arrival<L> {
    /// A peer came.
    Link(L),
    /// Nobody came for a while.
    Quiet,
    /// Nobody will come any more.
    Closed,
}

/// A place where peers come in.
pub trait Dock: Send {
    type Link: Link;

    /// The bytes that each link has taken before it comes. They never change.
    ghost greeting: { Self → List ℕ };

    /// How many links came.
    ghost arrivals: { Self → ℕ };

    /// How many turns were quiet.
    ghost quiets: { Self → ℕ };

    /// How often a turn has failed.
    ghost dock_faults: { Self → ℕ };

    /// Whether nothing more will come.
    ghost is_closed: { Self → Bool };

    /// The next link, a quiet turn, or that nobody will come any more.
    fn next(&mut self) -> Result<Arrival<Self::Link>, Failed>
        // A link that was not used, but for the greeting.
        ensures fresh_given { IfLink result (λ link. Self.Link.given link ≡ []) }
        ensures fresh_reads { IfLink result (λ link. Self.Link.read_faults link ≡ 0) }
        ensures fresh_writes { IfLink result (λ link. Self.Link.write_faults link ≡ 0) }
        ensures greeted { IfLink result (λ link. Self.Link.taken link ≡ greeting self.old) }
        ensures greeting { greeting self.new ≡ greeting self.old }

        // The counts.
        ensures arrived { IfLink result (λ _. arrivals self.new ≡ arrivals self.old + 1) }
        ensures no_link { OnNoLink result (arrivals self.new ≡ arrivals self.old) }
        ensures quiet { OnQuiet result (quiets self.old < quiets self.new) }
        ensures quiets { quiets self.old ≤ quiets self.new }
        ensures failed { OnErr result (HasRisen (dock_faults self.old) (dock_faults self.new)) }
        ensures answered { OnOk result (dock_faults self.new ≡ dock_faults self.old) }
        ensures later { dock_faults self.old ≤ dock_faults self.new }

        // A closed dock stays closed.
        ensures closed { OnClosed result (IsTrue (is_closed self.new)) }
        ensures stays { IsTrue (is_closed self.old) → IsTrue (is_closed self.new) };
}
