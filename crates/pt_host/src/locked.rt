//! The table behind its lock, as the server uses it.
ghost use Rattle.std.specs.Prelude.{◌≡◌, ◌+◌, ◌<◌, ◌≤◌, length, true, false, not, option_map, IfSome};
ghost use Rattle.ep_journal.specs.declared.decision.Decision.TheVariants as decision;
ghost use Rattle.ep_journal.specs.Items.{with_item};
ghost use Rattle.ep_journal.specs.Kept.{is_last};
ghost use Rattle.pt_server.specs.Deciding.{accepts_as, decided, stops_as};
ghost use Rattle.pt_host.specs.Server.{CanOpen, HasOpened, IsBegun, SameBut};
ghost use Rattle.ep_journal.specs.declared.limits.TheConstants.{CONNECTIONS};
ghost use Rattle.ep_journal.specs.declared.session.Opened.TheVariants as opened;
ghost use Rattle.ep_journal.specs.Recorded.{is_serving, opened_at};
ghost use Rattle.ep_registry.specs.Registered.{counted_if};
ghost use Rattle.std.specs.Prelude.{IsTrue};

use ep_journal::limits::CONNECTIONS;
use ep_live::Free;
use ep_registry::{Holder, Server};
use ep_table::StopAnswer;
use pt_io::Link;
use pt_roles::{Books, Holds, RoleMarks, Shared, World};
use pt_server::{Begun, Deciding, Opening, Process};
use pt_stream::Run;
use std::marker::Model;
use std::sync::Wait;

/// The server's half, and the table behind its lock. Contracts see the half.
#[derive(Drop)]
pub(crate) struct Locked<'r, 't, 'a, W: World, R: Wait, L: Link> {
    rt: &'r R,
    shared: &'t Shared<'a, W, L>,
    server: Server<Books<W>, RoleMarks<W>>,
    // How many connections were decided.
    decided: u32,
}

impl<'r, 't, 'a, W: World, R: Wait, L: Link> Model for Locked<'r, 't, 'a, W, R, L> {
    ghost use Rattle.std.specs.Prelude.{◌≡◌, ◌≤◌, length};
    ghost use Rattle.ep_registry.specs.Registered.{ServerHalf};
    ghost use Rattle.ep_journal.specs.declared.limits.TheConstants.{CONNECTIONS};

    ghost Value = { ServerHalf };

    ghost view = { λ l. l.server };

    ghost invariant = { λ l. (l.decided ≡ length l.server.decisions) × (l.decided ≤ CONNECTIONS) };
}

impl<'r, 't, 'a, W: World, R: Wait, L: Link + Drop> Locked<'r, 't, 'a, W, R, L> {
    /// The table of a server that has decided on no connection.
    pub(crate) fn new(
        rt: &'r R,
        shared: &'t Shared<'a, W, L>,
        server: Server<Books<W>, RoleMarks<W>>,
    ) -> Locked<'r, 't, 'a, W, R, L>
        requires { length server.decisions ≡ 0 }
        ensures { result ≡ server }
    {
        Locked {
            rt,
            shared,
            server,
            decided: 0,
        }
    }

    /// How many sessions were opened on all rows before any write.
    pub(crate) fn early(&self) -> u32
        ensures { result ≡ self.now.early }
    {
        self.server.early()
    }

    /// Whether as many connections were decided as can be.
    pub(crate) fn is_full(&self) -> bool
        ensures full { result ≡ true → length self.now.decisions ≡ CONNECTIONS }
        ensures room { result ≡ false → length self.now.decisions < CONNECTIONS }
    {
        self.decided as usize == CONNECTIONS
    }

    /// The server takes no more connections. Gives its half.
    pub(crate) fn close(self) -> Server<Books<W>, RoleMarks<W>>
        ensures { result ≡ record self.entry { left = true } }
    {
        let Locked {
            rt,
            shared,
            mut server,
            decided: _,
        } = self;
        shared.table.lock(rt).close(&mut server);
        server
    }
}

impl<'r, 't, 'a, W: World, R: Wait, L: Link + Drop> Deciding<Holder<Holds<W>>, Free<'a, W>>
    for Locked<'r, 't, 'a, W, R, L> {
    ghost use Rattle.std.specs.Prelude.{◌≡◌, false};
    ghost use Rattle.pt_host.specs.Server.{IsBegun, SameBut};

    ghost decisions = { λ l. l.decisions };

    ghost is_open = { λ l. l.left ≡ false };

    ghost begins = { λ l begun. IsBegun l.decisions begun.id begun.slot begun.holder begun.free };

    ghost same = { SameBut };

    fn pass(&mut self)
        requires room { length self.old.decisions < CONNECTIONS }
        ensures decides { self.new.decisions ≡ decided self.old.decisions decision.Nothing }
        ensures same { SameBut self.old self.new }
    {
        self.decided += 1;
        self.shared.table.lock(self.rt).pass(&mut self.server);
    }

    fn accept(&mut self) -> Option<Begun<Holder<Holds<W>>, Free<'a, W>>>
        requires open { self.old.left ≡ false }
        requires room { length self.old.decisions < CONNECTIONS }
        ensures decides { self.new.decisions
            ≡ decided self.old.decisions (accepts_as (option_map (λ begun. begun.id) result)) }
        ensures begins { IfSome result
            (λ begun. IsBegun self.new.decisions begun.id begun.slot begun.holder begun.free) }
        ensures same { SameBut self.old self.new }
    {
        self.decided += 1;
        let begun = self.shared.table.lock(self.rt).accept(&mut self.server);
        match begun {
            Some((holder, free)) => {
                let hold = holder.hold();
                Some(Begun {
                    id: hold.id,
                    slot: hold.slot,
                    holder,
                    free,
                })
            }
            None => None,
        }
    }

    fn stop(&mut self, id: u64) -> bool
        requires room { length self.old.decisions < CONNECTIONS }
        ensures decides { self.new.decisions ≡ decided self.old.decisions (stops_as id result) }
        ensures same { SameBut self.old self.new }
    {
        self.decided += 1;
        let answer = self.shared.table.lock(self.rt).stop(&mut self.server, id);
        matches!(answer, StopAnswer::Ticket(_))
    }

    fn fail(&mut self, begun: Begun<Holder<Holds<W>>, Free<'a, W>>)
        requires last { IsTrue (is_last self.old.decisions begun.id) }
        requires begun { IsBegun self.old.decisions begun.id begun.slot begun.holder begun.free }
        ensures decides { self.new.decisions
            ≡ with_item self.old.decisions (length self.old.decisions) decision.Nothing }
        ensures same { SameBut self.old self.new }
    {
        let Begun { holder, free, .. } = begun;
        self.shared
            .table
            .lock(self.rt)
            .fail(&mut self.server, holder, free);
    }
}

impl<'r, 't, 'a, W: World, R: Wait, L: Link + Drop> Opening<Holder<Holds<W>>>
    for Locked<'r, 't, 'a, W, R, L> {
    ghost use Rattle.pt_host.specs.Server.{CanOpen, HasOpened};

    ghost can_open = { CanOpen };

    ghost opens = { HasOpened };

    fn open(&mut self, holder: &mut Holder<Holds<W>>, early: bool)
        requires { CanOpen holder.old }
        ensures { HasOpened early self.old self.new holder.old holder.new }
    {
        self.shared
            .table
            .lock(self.rt)
            .open(&mut self.server, holder, early);
    }
}
