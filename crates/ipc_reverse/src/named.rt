//! A dock of calls, by a name of these.
ghost use Rattle.std.specs.Prelude.{◌≡◌, ◌+◌, ◌<◌, ◌≤◌, [], OnOk, OnErr, IsTrue};
ghost use Rattle.pt_io.specs.Faults.{HasRisen};
ghost use Rattle.pt_io.specs.Arrivals.{IfLink, OnNoLink, OnQuiet, OnClosed};
ghost use Rattle.ipc_reverse.specs.Calls.{is_over, faults_of};
ghost use Rattle.ipc_reverse.specs.Dock.{calls_of};
ghost use Rattle.ipc_reverse.specs.Named.{Makes};

use crate::advertise::Advertise;
use crate::dock::ReverseDock;
use pt_io::{Arrival, Caller, Dock, Failed};
use std::marker::{Brand, PhantomData};

/// The calls of one dock, by their name. A call picks it where it passes `Brand`.
pub trait Calls {
    ghost use Rattle.ipc_reverse.specs.Named.{Fixed};

    // What is fixed of them.
    ghost calls: { Fixed };
}

impl Calls for Brand {
    ghost use Rattle.ipc_reverse.specs.Named.{no_calls};

    ghost calls = { no_calls };
}

/// A dock whose type says which calls it makes. So it is known, of whoever was lent it as a dock, that it calls by the same
/// reference as before, and that each link of its caller was given on or is kept.
#[derive(Drop)]
pub struct NamedDock<'a, K: Caller, N: Calls> {
    pub dock: ReverseDock<'a, K>,
    name: PhantomData<N>,
    ghost makes: { Makes K.Caller K.Link.Sink N.calls dock },
}

impl<'a, K: Caller, N: Calls> NamedDock<'a, K, N> {
    /// The dock under the name of its calls.
    pub fn new(dock: ReverseDock<'a, K>) -> NamedDock<'a, K, N>
        requires { Makes K.Caller K.Link.Sink N.calls dock }
        ensures calls { calls_of result.dock ≡ calls_of dock.entry }
    {
        NamedDock {
            dock,
            name: PhantomData,
        }
    }

    /// The dock without the name of its calls.
    pub fn into_dock(self) -> ReverseDock<'a, K>
        ensures calls { calls_of result ≡ calls_of self.entry.dock }
        ensures makes { Makes K.Caller K.Link.Sink N.calls result }
    {
        let NamedDock { dock, name: _ } = self;
        dock
    }
}

impl<K: Caller, N: Calls + Send> Dock for NamedDock<'_, K, N>
where
    K::Link: Advertise + Drop,
{
    type Link = K::Link;

    ghost greeting = { λ _. N.calls.advert };

    ghost arrivals = { λ d. d.dock.given };

    ghost quiets = { λ _. 0 };

    ghost dock_faults = { λ d. faults_of K.Caller K.Link.Sink (calls_of d.dock) };

    ghost is_closed = { λ d. is_over N.calls.most (calls_of d.dock) };

    /// Calls the tool once, as the dock does.
    #[tactic(auto, using(crate::proofs::Turns::makes_on))]
    fn next(&mut self) -> Result<Arrival<K::Link>, Failed> {
        self.dock.next()
    }
}
