//! What the threads of a run share behind locks.
ghost use Rattle.std.specs.Prelude.{◌≡◌, ◌<◌, IfSome, true, false, IsTrue};
ghost use Rattle.ep_table.specs.declared.limits.TheConstants.{SLOTS};
ghost use Rattle.ep_journal.specs.declared.session.Stage.TheVariants as stage;
ghost use Rattle.ep_journal.specs.Recorded.{is_serving, may_end};
ghost use Rattle.pt_roles.specs.Roles.{IsLooked};
ghost use Rattle.pt_roles.specs.Table.{IsOver};

use crate::finale::Finale;
use crate::hints::Hints;
use crate::table::{Held, Table};
use crate::world::{Holds, RoleMarks, World};
use crate::writers::Gone;
use ep_journal::Fate;
use ep_live::{Free, Live};
use ep_registry::{Holder, Role};
use pt_io::Link;
use pt_server::Process;
use pt_stream::Run;
use std::sync::{Mutex, Wait};

/// The rows behind their locks, the hints, and the table behind its lock.
#[derive(Drop)]
pub struct Shared<'a, W: World, L: Link> {
    pub live: Live<'a, W>,
    pub hints: Hints<W>,
    pub table: Mutex<Table<'a, W, L>>,
}

impl<'a, W: World, L: Link + Drop> Shared<'a, W, L> {
    pub fn new(live: Live<'a, W>, hints: Hints<W>, table: Table<'a, W, L>) -> Shared<'a, W, L> {
        Shared {
            live,
            hints,
            table: Mutex::new(table),
        }
    }

    /// The table, once no thread shares it.
    pub fn into_table(self) -> Table<'a, W, L> {
        let Shared {
            live: _,
            hints: _,
            table,
        } = self;
        table.into_inner()
    }

    /// The session that waits in this slot, if there is one.
    pub fn take<R: Wait>(&self, rt: &R, slot: u32) -> Option<Held<'a, W, L>>
        requires { slot < SLOTS }
        ensures { IfSome result (λ held. held.slot ≡ slot) }
    {
        self.table.lock(rt).take(slot)
    }

    /// The session goes to its role, with its stream.
    pub fn hand_over<R: Wait>(&self, rt: &R, held: Held<'a, W, L>) {
        self.table.lock(rt).hand_over(held);
    }

    /// Whether the session is to end, and as what.
    pub fn look<R: Wait>(&self, rt: &R, holder: &mut Holder<Holds<W>>) -> Option<Fate>
        requires { IsTrue (is_serving holder.old.stage) }
        ensures { IsLooked holder.old holder.new result }
    {
        self.table.lock(rt).look(holder)
    }

    /// The session has ended so, and its slot is free.
    pub fn end<R: Wait>(
        &self,
        rt: &R,
        holder: Holder<Holds<W>>,
        fate: Fate,
        free: Free<'a, W>,
        finale: Finale<W, L>,
    )
        requires may { IsTrue (may_end fate holder.stage) }
        requires free { free ≡ holder.slot }
        requires over { IsOver W.world (record holder { stage = stage.Over fate }) finale }
    {
        self.table.lock(rt).end(holder, fate, free, finale);
    }

    /// Lets the role end, where the server has ended and none of the role's sessions goes on.
    pub fn leave<R: Wait>(&self, rt: &R, role: &mut Role<RoleMarks<W>>) -> bool
        ensures left { result ≡ true → role.new ≡ record role.old { left = true } }
        ensures stays { result ≡ false → role.new ≡ role.old }
    {
        self.table.lock(rt).leave(role)
    }

    /// All writers have ended, and leave this.
    pub fn end_writers<R: Wait>(&self, rt: &R, gone: Gone<'a, W>) {
        self.table.lock(rt).end_writers(gone);
        self.hints.end();
    }
}
