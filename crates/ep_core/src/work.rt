//! What a schedule has come to but for finished sessions, and the making of one step more.
ghost use Rattle.std.specs.Prelude.{◌≡◌, ◌≢◌, ◌≤◌, ◌∷◌, ℕ, List, [], Ok, Err, OnOk, IfOk, IsTrue, length};
ghost use Rattle.std.specs.List.{list_all};
ghost use Rattle.ep_defs.specs.Definitions.{AreDistinct, definition_at};
ghost use Rattle.ep_defs.specs.Event.{is_valid_event};
ghost use Rattle.ep_defs.specs.declared.event.EventDef.{EventDef as EventValue};
ghost use Rattle.ep_defs.specs.declared.limits.TheConstants.{EVENTS as MOST_EVENTS};
ghost use Rattle.ep_defs.specs.declared.session.TraceInfo.{TraceInfo as InfoValue};
ghost use Rattle.ep_rundown.specs.Rundown.{lacks_rundown};
ghost use Rattle.nt_write.specs.declared.fault.Fault.TheVariants.{TooLong};
ghost use Rattle.ep_tables.specs.declared.judged.Judged.TheVariants.{Accept, Enter, Leave, Open, Begin, Show, End, Steal, Give, Point, Close, Finish};

use crate::ended::Ended;
use ep_core_laws::laws::{
    a_due_write_can_be_taken, a_machine_follows_a_begin, a_machine_follows_a_close,
    a_machine_follows_a_finish, a_machine_follows_a_give, a_machine_follows_a_leave,
    a_machine_follows_a_point, a_machine_follows_a_show, a_machine_follows_a_steal,
    a_machine_follows_an_accept, a_machine_follows_an_end, a_machine_follows_an_enter,
    a_machine_follows_an_open, a_machine_follows_its_start, a_session_ends_with_its_entries,
    a_session_that_comes_has_an_id, a_write_that_begins_has_a_number, stack_ids_suffice,
};
use ep_defs::limits::{EVENTS, THREADS};
use ep_defs::{Config, EventDef, TraceInfo, Write};
use ep_stream::Fate;
use ep_stream_laws::a_finished_session_stays;
use ep_tables::{OfSession, OnBoth, OnRow, Tables};
use nt_write::Fault;
use std::alloc::{AllocError, Global};

/// The sessions, threads and rows of a program.
///
/// Nearly all steps of a long schedule begin, show or end a write. The others stay out of line, so that what these keep on
/// the stack need not be cleared for each step.
#[derive(Drop)]
pub(crate) struct Work {
    pub(crate) tables: Tables,
    // By row, from row 1 on, the write that its thread began last.
    begun: Vec<Option<Write>>,
}

impl Work {
    ghost use Rattle.ep_core.specs.state.Works.{HasWorked, IsNext, Makes, MakesWith, EndsWith};

    /// That of a program with these events, of which no thread has made a write yet.
    pub(crate) fn new(alloc: Global, events: Vec<EventDef>) -> Result<Work, AllocError>
        requires few { length events.items ≤ EVENTS }
        requires valid { IsTrue (list_all is_valid_event events.items) }
        requires distinct { AreDistinct (definition_at events.items) }
        requires lacks { IsTrue (lacks_rundown events.items) }
        ensures { (info : InfoValue) → IfOk result (HasWorked events.items info []) }
    {
        a_machine_follows_its_start();
        let mut begun = Vec::with_capacity(alloc, THREADS as usize)?;
        for _row in 0..THREADS {
            begun.push(None)?;
        }
        Ok(Work {
            tables: Tables::new(alloc, events)?,
            begun,
        })
    }

    /// Begins the stream of a session.
    #[inline(never)]
    pub(crate) fn accept(
        &mut self,
        alloc: Global,
        session: u32,
        config: Config,
        info: &TraceInfo,
    ) -> Result<(), AllocError>
        requires { IsNext (Accept session config) self.old }
        ensures { OnOk result (MakesWith info.now (Accept session config) self.old self.new) }
    {
        a_session_that_comes_has_an_id();
        a_machine_follows_an_accept();
        in_memory(self.tables.accept(alloc, session, config, info))
    }

    /// Gives a thread that comes a row.
    #[inline(never)]
    pub(crate) fn enter(&mut self, on: OnRow) -> Result<(), AllocError>
        requires { IsNext (Enter on) self.old }
        ensures { OnOk result (Makes (Enter on) self.old self.new) }
    {
        a_machine_follows_an_enter();
        self.tables.enter(on)
    }

    /// A thread leaves.
    #[inline(never)]
    pub(crate) fn leave(&mut self, on: OnRow)
        requires { IsNext (Leave on) self.old }
        ensures { Makes (Leave on) self.old self.new }
    {
        a_machine_follows_a_leave();
        self.tables.leave(on);
    }

    /// Opens a session on a thread.
    #[inline(never)]
    pub(crate) fn open(&mut self, alloc: Global, both: OnBoth) -> Result<(), AllocError>
        requires { IsNext (Open both) self.old }
        ensures { OnOk result (Makes (Open both) self.old self.new) }
    {
        a_machine_follows_an_open();
        self.tables.open(alloc, both)
    }

    /// Begins a write of a thread, and keeps it.
    pub(crate) fn begin(&mut self, on: OnRow, stamp: u64, write: Write)
        requires { IsNext (Begin on stamp write) self.old }
        ensures { Makes (Begin on stamp write) self.old self.new }
    {
        a_write_that_begins_has_a_number();
        a_machine_follows_a_begin();
        self.tables.begin(on, stamp, &write);
        self.begun[on.row as usize - 1] = Some(write);
    }

    /// Shows the write that a thread is in to a session.
    pub(crate) fn show(&mut self, both: OnBoth)
        requires { IsNext (Show both) self.old }
        ensures { Makes (Show both) self.old self.new }
    {
        a_due_write_can_be_taken();
        a_machine_follows_a_show();
        let Some(write) = &self.begun[both.on.row as usize - 1] else {
            unreachable!();
        };
        self.tables.show(both, write);
    }

    /// Ends the write of a thread.
    pub(crate) fn end(&mut self, on: OnRow)
        requires { IsNext (End on) self.old }
        ensures { Makes (End on) self.old self.new }
    {
        a_machine_follows_an_end();
        self.tables.end(on);
    }

    /// Takes what a thread has pending for a session.
    #[inline(never)]
    pub(crate) fn steal(&mut self, alloc: Global, both: OnBoth) -> Result<(), AllocError>
        requires { IsNext (Steal both) self.old }
        ensures { OnOk result (Makes (Steal both) self.old self.new) }
    {
        stack_ids_suffice();
        a_machine_follows_a_steal();
        in_memory(self.tables.steal(alloc, both))
    }

    /// Gives back what a session has in hand.
    #[inline(never)]
    pub(crate) fn give(&mut self, of: OfSession)
        requires { IsNext (Give of) self.old }
        ensures { Makes (Give of) self.old self.new }
    {
        a_machine_follows_a_give();
        self.tables.give(of);
    }

    /// Tells in a session's stream how far each thread had come.
    #[inline(never)]
    pub(crate) fn point(
        &mut self,
        alloc: Global,
        of: OfSession,
        stamp: u64,
    ) -> Result<(), AllocError>
        requires { IsNext (Point of stamp) self.old }
        ensures { OnOk result (Makes (Point of stamp) self.old self.new) }
    {
        stack_ids_suffice();
        a_machine_follows_a_point();
        in_memory(self.tables.point(alloc, of, stamp))
    }

    /// Closes a session on a thread.
    #[inline(never)]
    pub(crate) fn close(&mut self, alloc: Global, both: OnBoth) -> Result<(), AllocError>
        requires { IsNext (Close both) self.old }
        ensures { OnOk result (Makes (Close both) self.old self.new) }
    {
        stack_ids_suffice();
        a_machine_follows_a_close();
        in_memory(self.tables.close(alloc, both))
    }

    /// Ends a session's stream, and gives what is left of the session.
    pub(crate) fn finish(
        &mut self,
        alloc: Global,
        of: OfSession,
        stamp: u64,
    ) -> Result<Ended, AllocError>
        requires { IsNext (Finish of stamp) self.old }
        ensures works { OnOk result (Makes (Finish of stamp) self.old self.new) }
        ensures ended { IfOk result (EndsWith of.session stamp self.old) }
    {
        stack_ids_suffice();
        a_finished_session_stays();
        a_session_ends_with_its_entries();
        a_machine_follows_a_finish();
        let end = self.tables.finish(alloc, of, stamp);
        match end.fate {
            Fate::ProgramEnd => Ok(Ended {
                sink: end.sink,
                marks: end.marks,
            }),
            // A sink in memory fails only where it is out of memory.
            Fate::LinkFault | Fate::OutOfMemory => Err(AllocError),
            Fate::Requested { .. } | Fate::TooLong => unreachable!(),
        }
    }
}

// A sink in memory fails only where it is out of memory.
fn in_memory(answer: Result<(), Fault>) -> Result<(), AllocError>
    requires { answer ≢ Err TooLong }
    ensures { OnOk result (answer ≡ Ok tt) }
{
    match answer {
        Ok(()) => Ok(()),
        Err(Fault::WriteFault | Fault::OutOfMemory) => Err(AllocError),
        Err(Fault::TooLong) => unreachable!(),
    }
}
