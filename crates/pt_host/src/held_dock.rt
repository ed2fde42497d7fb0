//! A dock that a run is lent.
ghost use Rattle.std.specs.Prelude.{◌≡◌, ◌+◌, [], OnOk, OnErr, IsTrue};
ghost use Rattle.pt_io.specs.Arrivals.{IfLink, OnNoLink, OnClosed};
ghost use Rattle.pt_io.specs.Faults.{HasRisen};
ghost use Rattle.pt_server.specs.Connection.{IsFresh};

use pt_io::{Arrival, Dock, Failed, Link};

/// A reference to a dock.
#[derive(Drop)]
pub(crate) struct HeldDock<'d, D> {
    dock: &'d mut D,
}

impl<'d, D> HeldDock<'d, D> {
    pub(crate) fn new(dock: &'d mut D) -> HeldDock<'d, D>
        ensures same { result.dock.ghost_name ≡ dock.entry.ghost_name }
        ensures now { result.dock.now ≡ dock.old }
    {
        HeldDock { dock }
    }
}

impl<L: Link, D: Dock<Link = L>> HeldDock<'_, D> {
    // What a dock says, and that it is still the same reference.
    pub(crate) fn next(&mut self) -> Result<Arrival<L>, Failed>
        ensures same { self.new.dock.ghost_name ≡ self.old.dock.ghost_name }
        ensures fresh { IfLink result (λ link. IsFresh (D.greeting self.old.dock.now) (L.given link) (L.taken link)
            (L.read_faults link) (L.write_faults link)) }
        ensures greeting { D.greeting self.new.dock.now ≡ D.greeting self.old.dock.now }
        ensures arrived { IfLink result (λ _. D.arrivals self.new.dock.now ≡ D.arrivals self.old.dock.now + 1) }
        ensures no_link { OnNoLink result (D.arrivals self.new.dock.now ≡ D.arrivals self.old.dock.now) }
        ensures failed { OnErr result
            (HasRisen (D.dock_faults self.old.dock.now) (D.dock_faults self.new.dock.now)) }
        ensures answered { OnOk result (D.dock_faults self.new.dock.now ≡ D.dock_faults self.old.dock.now) }
        ensures closed { OnClosed result (IsTrue (D.is_closed self.new.dock.now)) }
    {
        self.dock.next()
    }
}
