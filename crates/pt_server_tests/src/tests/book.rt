//! A journal as who decides.
ghost use Rattle.std.specs.Prelude.{◌≡◌, IsTrue, length};
ghost use Rattle.ep_journal.specs.declared.decision.Decision.TheVariants as decision;
ghost use Rattle.ep_journal.specs.Items.{item, passes, with_item};
ghost use Rattle.ep_journal.specs.Kept.{is_last, is_serving_entry};

use ep_journal::Journal;
use ep_table::{Accepted, StopAnswer};
use pt_server::{Begun, Deciding};

/// A journal alone. Nothing is kept for a session beside what it says of it.
#[derive(Debug, Drop)]
pub struct Book {
    pub journal: Journal,
}

impl Deciding<(), ()> for Book {
    ghost decisions = { λ b. b.journal.decisions };

    ghost is_open = { λ _. Unit {0} };

    ghost begins = { λ b begun. IsTrue (passes is_serving_entry (item b.journal.sessions begun.id)) };

    ghost same = { λ _ _. Unit {0} };

    fn pass(&mut self) {
        self.journal.pass();
    }

    fn accept(&mut self) -> Option<Begun<(), ()>> {
        let _decided = self.journal.decided();
        match self.journal.accept() {
            Accepted::Seat { slot, id } => Some(Begun {
                id,
                slot,
                holder: (),
                free: (),
            }),
            Accepted::Full => None,
        }
    }

    fn stop(&mut self, id: u64) -> bool {
        match self.journal.stop(id) {
            StopAnswer::Ticket(_) => true,
            StopAnswer::NotLive { .. } => false,
        }
    }

    fn fail(&mut self, begun: Begun<(), ()>)
        requires last { IsTrue (is_last self.old.journal.decisions begun.id) }
        requires begun { IsTrue (passes is_serving_entry (item self.old.journal.sessions begun.id)) }
        ensures decides { self.new.journal.decisions
            ≡ with_item self.old.journal.decisions (length self.old.journal.decisions) decision.Nothing }
    {
        self.journal.fail(begun.id);
    }
}
