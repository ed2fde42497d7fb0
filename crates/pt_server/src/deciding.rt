//! Who decides on a connection.
ghost use Rattle.std.specs.Prelude.{◌≡◌, ℕ, ◌<◌, List, Option, Some, None, length, IfSome, IsTrue, option_map};
ghost use Rattle.ep_journal.specs.declared.limits.TheConstants.{CONNECTIONS};
ghost use Rattle.ep_journal.specs.declared.decision.Decision.TheVariants as decision;
ghost use Rattle.ep_journal.specs.Items.{with_item};
ghost use Rattle.ep_journal.specs.Kept.{is_last};
ghost use Rattle.pt_server.specs.Deciding.{decided, accepts_as, stops_as};

/// A session that begins, with what was given for it: who has it, and what is there of its slot.
#[derive(Debug, Drop)]
pub struct Begun<H, F> {
    /// Its id, from 1.
    pub id: u64,
    /// Its slot, from 0.
    pub slot: u32,
    pub holder: H,
    pub free: F,
}

/// Who decides on connections, one after another: a journal, or the registry of a run behind its lock. No decision takes
/// memory.
pub trait Deciding<H, F> {
    ghost use Rattle.ep_journal.specs.declared.decision.Decision.{Decision};
    ghost use Rattle.pt_server.specs.declared.deciding.Begun.{Begun};

    // What was decided, by connection from 1.
    ghost decisions: { Self → List Decision };

    // Sessions may still begin.
    ghost is_open: { Self → Type 0 };

    // What was given for the session is its own.
    ghost begins: { Self → Begun H F → Type 0 };

    // What no decision changes.
    ghost same: { Self → Self → Type 0 };

    /// The next connection neither begins nor stops a session.
    fn pass(&mut self)
        requires room { length (decisions self.old) < CONNECTIONS }
        ensures decides { decisions self.new ≡ decided (decisions self.old) decision.Nothing }
        ensures same { same self.old self.new };

    /// The next connection asks for a session: it begins, unless all slots are held.
    fn accept(&mut self) -> Option<Begun<H, F>>
        requires open { is_open self.old }
        requires room { length (decisions self.old) < CONNECTIONS }
        ensures decides { decisions self.new
            ≡ decided (decisions self.old) (accepts_as (option_map (λ begun. begun.id) result)) }
        ensures begins { IfSome result (begins self.new) }
        ensures same { same self.old self.new };

    /// The next connection asks for the end of the session of this id, and whether it is granted.
    fn stop(&mut self, id: u64) -> bool
        requires room { length (decisions self.old) < CONNECTIONS }
        ensures decides { decisions self.new ≡ decided (decisions self.old) (stops_as id result) }
        ensures same { same self.old self.new };

    /// The start of the session that was accepted last has failed: its slot is free, and nothing was decided on its
    /// connection.
    fn fail(&mut self, begun: Begun<H, F>)
        requires last { IsTrue (is_last (decisions self.old) begun.id) }
        requires begun { begins self.old begun }
        ensures decides { decisions self.new
            ≡ with_item (decisions self.old) (length (decisions self.old)) decision.Nothing }
        ensures same { same self.old self.new };
}

/// Who is told which sessions were opened on all that there is to open them on. What is told changes no decision.
pub trait Opening<H> {
    ghost use Rattle.std.specs.Prelude.{Bool};

    // Who has a session that was not opened yet.
    ghost can_open: { H → Type 0 };

    // What becomes of both where a session was opened, early or later.
    ghost opens: { Bool → Self → Self → H → H → Type 0 };

    /// The session was opened, early or later.
    fn open(&mut self, holder: &mut H, early: bool)
        requires { can_open holder.old }
        ensures { opens early self.old self.new holder.old holder.new };
}
