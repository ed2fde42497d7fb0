//! The connections of a server.
ghost use Rattle.std.specs.Prelude.{◌≡◌, ℕ, ◌+◌, ◌<◌, ◌++◌, ◌∷◌, [], length, IsTrue, IfOk, IfSome, OnSome, IfNone};
ghost use Rattle.ep_defs.specs.Session.{is_valid_facts};
ghost use Rattle.ep_journal.specs.declared.limits.TheConstants.{CONNECTIONS};
ghost use Rattle.pt_server.specs.Deciding.{decided};
ghost use Rattle.pt_server.specs.Connection.{IsFresh, Took};
ghost use Rattle.pt_server.specs.Answered.{IsBeginning};
ghost use Rattle.pt_server.specs.Told.{AreTold};
ghost use Rattle.pt_server.specs.Unstarted.{HasAskedSession, IsUnstarted};
ghost use Rattle.ep_journal.specs.declared.decision.Decision.{Decision};
ghost use Rattle.ep_journal.specs.declared.decision.Decision.TheVariants as decision;
ghost use Rattle.ep_journal.specs.Items.{with_item};
ghost use Rattle.ep_journal.specs.Kept.{is_last};

use crate::answer::{Answered, Asked, answer};
use crate::deciding::{Begun, Deciding, Opening};
use crate::process::Process;
use crate::unstarted::{Unstarted, end_unstarted};
use ep_defs::Facts;
use ep_journal::limits::CONNECTIONS;
use pt_io::{Gate, Link, Moment};
use std::alloc::{AllocError, Global};
use std::marker::{Model, PhantomData};

/// How a connection has ended that is no session.
#[derive(Clone, Copy, Debug, PartialEq, Eq)]
pub enum ConnAnswer {
    /// It was refused with this code.
    Error { code: u32 },
    /// The process described itself.
    Info,
    /// The session of this id is to end.
    Stopped { session: u64 },
    /// A read of its link failed.
    ReadFault,
    /// A write of its link failed.
    WriteFault,
}

/// A connection that has ended and is no session.
#[derive(Debug, Drop)]
pub struct ConnEnd<L> {
    /// Its number, from 1.
    pub conn: u32,
    pub answer: ConnAnswer,
    pub link: L,
}

/// Who decides on the connections of a process, and the connections that have ended, with room for all. Each that is no
/// session is there, in the order of their numbers, with the answer that it got and its link. Contracts see both.
#[derive(Drop)]
pub struct Desk<N: Process, H, F, D: Deciding<H, F>, L: Link> {
    pub decider: D,
    conns: Vec<ConnEnd<L>>,
    // How many connections were decided.
    decided: u32,
    tag: PhantomData<(N, H, F)>,
}

impl<N: Process, H, F, D: Deciding<H, F>, L: Link> Model for Desk<N, H, F, D, L> {
    ghost use Rattle.pt_server.specs.Told.{Desked, IsDesk};

    ghost Value = { Desked D L };

    ghost view = { λ d. record { decider = d.decider; conns = d.conns.items } };

    ghost invariant = { λ d. IsDesk L.read_side L.write_side N.facts N.greeting (D.decisions d.decider) d.conns d.decided };
}

impl<N: Process, H: Drop, F: Drop, D: Deciding<H, F> + Drop, L: Link + Drop> Desk<N, H, F, D, L> {
    /// No connection was decided. The only call that takes memory for more than one connection: room for all.
    pub fn new(alloc: Global, decider: D) -> Result<Desk<N, H, F, D, L>, AllocError>
        requires { D.decisions decider ≡ [] }
        ensures { IfOk result (λ desk. desk ≡ record { decider = decider; conns = [] }) }
    {
        let mut conns = Vec::new(alloc);
        conns.reserve(CONNECTIONS)?;
        Ok(Desk {
            decider,
            conns,
            decided: 0,
            tag: PhantomData,
        })
    }

    /// Takes the next connection: reads its request, decides on it, replies by one write and shuts its link. An accepted
    /// request for a session comes back instead, and has no reply yet.
    pub fn answer<G: Gate>(
        &mut self,
        alloc: Global,
        facts: &Facts,
        gate: &G,
        link: L,
    ) -> Option<Asked<H, F, L>>
        requires facts { (facts.now ≡ N.facts) × IsTrue (is_valid_facts facts.now) }
        requires fresh { IsFresh N.greeting (L.given link) (L.taken link) (L.read_faults link)
            (L.write_faults link) }
        requires open { D.is_open self.old.decider }
        requires room { length (D.decisions self.old.decider) < CONNECTIONS }
        ensures decides { (d : Decision)
            × (D.decisions self.new.decider ≡ decided (D.decisions self.old.decider) d) }
        ensures one { length (D.decisions self.new.decider)
            ≡ length (D.decisions self.old.decider) + 1 }
        ensures same { D.same self.old.decider self.new.decider }
        ensures begins { IfSome result (λ asked. IsBeginning (D.begins self.new.decider)
            (D.decisions self.old.decider) (D.decisions self.new.decider) (L.read_side asked.link)
            asked.begun asked.config) }
        ensures last { IfSome result
            (λ asked. IsTrue (is_last (D.decisions self.new.decider) asked.begun.id)) }
        ensures silent { IfSome result (λ asked. Took N.greeting [] (L.write_side asked.link)) }
        ensures conn { IfSome result (λ asked. asked.conn ≡ length (D.decisions self.new.decider)) }
        ensures goes_on { OnSome result (self.new.conns ≡ self.old.conns) }
        ensures ended { IfNone result ((end : ConnEnd L)
            × (self.new.conns ≡ self.old.conns ++ end ∷ [])) }
    {
        let conn = self.decided + 1;
        match answer::<N, H, F, D, L>(alloc, &mut self.decider, facts, link) {
            Answered::Ended { answer, link } => {
                self.decided = conn;
                self.conns.push_reserved(ConnEnd { conn, answer, link });
                gate.pass(Moment::Answered { conn });
                None
            }
            Answered::Begins {
                begun,
                config,
                link,
            } => {
                self.decided = conn;
                Some(Asked {
                    conn,
                    begun,
                    config,
                    link,
                })
            }
        }
    }

    /// The start of the session that was accepted last has failed: its slot is free, and its connection ends. It is told
    /// that memory is missing where nothing was written before.
    pub fn fail<G: Gate>(&mut self, gate: &G, begun: Begun<H, F>, link: L, why: Unstarted)
        requires last { IsTrue (is_last (D.decisions self.old.decider) begun.id) }
        requires begun { D.begins self.old.decider begun }
        requires asked { HasAskedSession (L.read_side link) }
        requires why { IsUnstarted N.facts N.greeting (L.write_side link) why }
        ensures decides { D.decisions self.new.decider
            ≡ with_item (D.decisions self.old.decider) (length (D.decisions self.old.decider))
            decision.Nothing }
        ensures same { D.same self.old.decider self.new.decider }
        ensures ended { (end : ConnEnd L) × (self.new.conns ≡ self.old.conns ++ end ∷ []) }
    {
        let conn = self.decided;
        self.decider.fail(begun);
        let mut link = link;
        let answer = end_unstarted::<N, L>(&mut link, why);
        self.conns.push_reserved(ConnEnd { conn, answer, link });
        gate.pass(Moment::Answered { conn });
    }

    /// Who decides.
    pub fn decider(&self) -> &D
        ensures { result.now ≡ self.now.decider }
    {
        &self.decider
    }

    /// Who decides, and the connections that have ended and are no sessions, by number.
    pub fn finish(self) -> (D, Vec<ConnEnd<L>>)
        ensures told { AreTold L.read_side L.write_side N.facts N.greeting 1 (D.decisions result.0)
            result.1.items }
        ensures same { (result.0 ≡ self.decider) × (result.1.items ≡ self.conns) }
    {
        let Desk {
            decider,
            conns,
            decided: _,
            tag: _,
        } = self;
        (decider, conns)
    }
}

impl<N: Process, H, F, D: Deciding<H, F> + Opening<H>, L: Link> Desk<N, H, F, D, L> {
    /// Tells who decides that a session was opened, early or later, where that changes no decision.
    pub fn open(&mut self, holder: &mut H, early: bool)
        requires can { D.can_open holder.old }
        requires keeps { (decider : D) (opened : H) → D.opens early self.old.decider decider holder.old opened
            → D.decisions decider ≡ D.decisions self.old.decider }
        ensures opens { D.opens early self.old.decider self.new.decider holder.old holder.new }
        ensures conns { self.new.conns ≡ self.old.conns }
    {
        self.decider.open(holder, early);
    }
}
