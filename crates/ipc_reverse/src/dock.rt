//! The calls of one tool as a dock.
ghost use Rattle.std.specs.Prelude.{◌≡◌, ◌+◌, ◌<◌, ◌≤◌, [], None, OnOk, OnErr, IsTrue};
ghost use Rattle.pt_io.specs.Faults.{HasRisen};
ghost use Rattle.pt_io.specs.Arrivals.{IfLink, OnNoLink, OnQuiet, OnClosed};
ghost use Rattle.ipc_reverse.specs.Calls.{TurnsTo, is_over, faults_of};
ghost use Rattle.ipc_reverse.specs.Dock.{calls_of};

use crate::advertise::Advertise;
use crate::limits::ADVERT_BYTES;
use pt_io::{Arrival, Caller, Dock, Failed};

/// A tool that listens, as a dock: each turn calls it, says first who the program is, and gives the link. A link over which that
/// can't be said is kept, and nobody is called any more.
#[derive(Drop)]
pub struct ReverseDock<'a, K: Caller> {
    pub caller: &'a mut K,
    /// Whom it calls.
    pub target: &'a str,
    /// What each link takes first.
    pub advert: [u8; ADVERT_BYTES],
    /// How many links it gives at most.
    pub most: u32,
    /// How many links it gave.
    pub given: u32,
    /// The link that took only a part of the advert.
    pub kept: Option<K::Link>,
}

impl<'a, K: Caller> ReverseDock<'a, K> {
    /// A dock that has called nobody. It calls the target, and gives at most so many links.
    pub fn new(
        caller: &'a mut K,
        target: &'a str,
        advert: [u8; ADVERT_BYTES],
        most: u32,
    ) -> ReverseDock<'a, K>
        ensures same { result.caller.ghost_name ≡ caller.entry.ghost_name }
        ensures now { result.caller.now ≡ caller.old }
        ensures target { result.target.now ≡ target.now }
        ensures fixed { (result.advert ≡ advert) × (result.most ≡ most) }
        ensures none { (result.given ≡ 0) × (result.kept ≡ None) }
    {
        ReverseDock {
            caller,
            target,
            advert,
            most,
            given: 0,
            kept: None,
        }
    }

    /// The link that took only a part of the advert, if there is one.
    pub fn end(self) -> Option<K::Link>
        ensures kept { result ≡ self.entry.kept }
        ensures left { self.exit.0.now ≡ self.entry.caller.now }
    {
        let ReverseDock {
            caller: _,
            target: _,
            advert: _,
            most: _,
            given: _,
            kept,
        } = self;
        kept
    }
}

impl<K: Caller> Dock for ReverseDock<'_, K>
where
    K::Link: Advertise + Drop,
{
    type Link = K::Link;

    ghost greeting = { λ d. d.advert };

    ghost arrivals = { λ d. d.given };

    ghost quiets = { λ _. 0 };

    ghost dock_faults = { λ d. faults_of K.Caller K.Link.Sink (calls_of d) };

    ghost is_closed = { λ d. is_over d.most (calls_of d) };

    /// Calls the tool once, unless it was given as many links as are to be, or a link is kept: then it is closed.
    fn next(&mut self) -> Result<Arrival<K::Link>, Failed>
        ensures same { self.new.caller.ghost_name ≡ self.old.caller.ghost_name }
        ensures fixed { (self.new.target.now ≡ self.old.target.now) × (self.new.advert ≡ self.old.advert)
            × (self.new.most ≡ self.old.most) }
        ensures turned { TurnsTo K.Caller K.Link.Sink K.Link.read_side self.old.target.now self.old.advert self.old.most
            (calls_of self.old) (calls_of self.new) result }

        // What the trait says.
        ensures fresh_given { IfLink result (λ link. K.Link.given link ≡ []) }
        ensures fresh_reads { IfLink result (λ link. K.Link.read_faults link ≡ 0) }
        ensures fresh_writes { IfLink result (λ link. K.Link.write_faults link ≡ 0) }
        ensures greeted { IfLink result (λ link. K.Link.taken link ≡ self.old.advert) }
        ensures greeting { self.new.advert ≡ self.old.advert }
        ensures arrived { IfLink result (λ _. self.new.given ≡ self.old.given + 1) }
        ensures no_link { OnNoLink result (self.new.given ≡ self.old.given) }
        ensures quiet { OnQuiet result (0 < 0) }
        ensures quiets { 0 ≤ 0 }
        ensures failed { OnErr result (HasRisen (faults_of K.Caller K.Link.Sink (calls_of self.old))
            (faults_of K.Caller K.Link.Sink (calls_of self.new))) }
        ensures answered { OnOk result (faults_of K.Caller K.Link.Sink (calls_of self.new)
            ≡ faults_of K.Caller K.Link.Sink (calls_of self.old)) }
        ensures later { faults_of K.Caller K.Link.Sink (calls_of self.old)
            ≤ faults_of K.Caller K.Link.Sink (calls_of self.new) }
        ensures closed { OnClosed result (IsTrue (is_over self.new.most (calls_of self.new))) }
        ensures stays { IsTrue (is_over self.old.most (calls_of self.old))
            → IsTrue (is_over self.new.most (calls_of self.new)) }
    {
        if self.kept.is_some() || self.given >= self.most {
            return Ok(Arrival::Closed);
        }
        let mut link = self.caller.call(self.target)?;
        match link.advertise(&self.advert) {
            Ok(()) => {
                self.given += 1;
                Ok(Arrival::Link(link))
            }
            Err(Failed) => {
                self.kept = Some(link);
                Err(Failed)
            }
        }
    }
}
