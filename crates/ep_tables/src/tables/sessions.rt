//! Steps that a session makes.
ghost use Rattle.std.specs.Prelude.{◌≡◌, ◌≢◌, ◌<◌, Err, IfOk, OnOk};
ghost use Rattle.ep_defs.specs.declared.limits.TheConstants.{SESSIONS};
ghost use Rattle.nt_write.specs.declared.fault.Fault.TheVariants.{TooLong};
ghost use Rattle.ep_tables.specs.Judged.{IsReady};
ghost use Rattle.ep_tables.specs.declared.judged.Judged.TheVariants.{Accept, Open, Steal, Give, Point, Close, Finish};
ghost use Rattle.ep_tables.specs.Made.{MakesAccept, MakesOpen, MakesSteal, MakesGive, MakesPoint, MakesClose, MakesFinish, RunsOut, PointRunsOut, EndsAs, HasId, HasBegun};
ghost use Rattle.ep_tables.specs.Tied.{AreTied};

use crate::judged::{OfSession, OnBoth};
use crate::tables::{Present, Tables};
use ep_defs::{Config, TraceInfo};
use ep_stream::{Fate, Seat, Session, SessionEnd};
use ep_table::Accepted;
use nt_write::Fault;
use pt_io::MemSink;
use std::alloc::{AllocError, Global};
use std::collections::BTreeMap;

// The number of the connection that asks for the sessions of a schedule, which no connection asks for.
const NO_CONNECTION: u32 = 0;

impl Tables {
    /// Begins the stream of a session, and gives it a slot and its chunks.
    pub fn accept(
        &mut self,
        alloc: Global,
        session: u32,
        config: Config,
        info: &TraceInfo,
    ) -> Result<(), Fault>
        requires ready { IsReady self.old (Accept session config) }
        requires tied { AreTied self.old }
        requires few { HasId self.old }
        ensures made { OnOk result (MakesAccept session config info.now self.old self.new) }
        ensures tied { OnOk result (AreTied self.new) }
        ensures not_long { result ≢ Err TooLong }
    {
        let Accepted::Seat { slot, .. } = self.table.accept() else {
            unreachable!();
        };
        let chunks = config.chunks;
        let present = begin_session(alloc, session, slot, config, info)?;
        self.rows.seat(alloc, present.slot, chunks)?;
        if let Err(failed) = self.present.insert(0, present) {
            return Err(AllocError::from(failed).into());
        }
        self.last_session = session;
        Ok(())
    }

    /// Opens a session on a thread.
    pub fn open(&mut self, alloc: Global, both: OnBoth) -> Result<(), AllocError>
        requires ready { IsReady self.old (Open both) }
        requires tied { AreTied self.old }
        ensures made { OnOk result (MakesOpen both.of.session both.on.thread self.old self.new) }
        ensures tied { OnOk result (AreTied self.new) }
    {
        let present = &mut self.present[both.of.place];
        present.session.attach(alloc, &mut self.rows, both.on.row)?;
        present.opened.insert(both.on.thread, ())?;
        Ok(())
    }

    /// Takes what a thread has pending for a session into the session's stream and hand.
    pub fn steal(&mut self, alloc: Global, both: OnBoth) -> Result<(), Fault>
        requires ready { IsReady self.old (Steal both) }
        requires tied { AreTied self.old }
        ensures made { OnOk result (MakesSteal both.of.session both.on.thread self.old self.new) }
        ensures tied { OnOk result (AreTied self.new) }
        ensures long { result ≡ Err TooLong → RunsOut both.of.session both.on.thread self.old }
    {
        self.present[both.of.place]
            .session
            .steal(alloc, &mut self.rows, both.on.row, self.events.as_slice())?;
        Ok(())
    }

    /// Gives back what a session has in hand.
    pub fn give(&mut self, of: OfSession)
        requires ready { IsReady self.old (Give of) }
        requires tied { AreTied self.old }
        ensures made { MakesGive of.session self.old self.new }
        ensures tied { AreTied self.new }
    {
        self.present[of.place].session.give(&mut self.rows);
    }

    /// Tells in a session's stream how far each thread had come.
    pub fn point(&mut self, alloc: Global, of: OfSession, stamp: u64) -> Result<(), Fault>
        requires ready { IsReady self.old (Point of stamp) }
        requires tied { AreTied self.old }
        ensures made { OnOk result (MakesPoint of.session stamp self.old self.new) }
        ensures tied { OnOk result (AreTied self.new) }
        ensures long { result ≡ Err TooLong → PointRunsOut of.session stamp self.old }
    {
        self.present[of.place].session.point(alloc, stamp)
    }

    /// Closes a session on a thread, and takes what the thread still has pending.
    pub fn close(&mut self, alloc: Global, both: OnBoth) -> Result<(), Fault>
        requires ready { IsReady self.old (Close both) }
        requires tied { AreTied self.old }
        ensures made { OnOk result (MakesClose both.of.session both.on.thread self.old self.new) }
        ensures tied { OnOk result (AreTied self.new) }
        ensures long { result ≡ Err TooLong → RunsOut both.of.session both.on.thread self.old }
    {
        self.present[both.of.place]
            .session
            .detach(alloc, &mut self.rows, both.on.row, self.events.as_slice())
    }

    /// Ends a session's stream, with a rundown where the session was asked for one, and frees its slot.
    pub fn finish(&mut self, alloc: Global, of: OfSession, stamp: u64) -> SessionEnd<MemSink>
        requires ready { IsReady self.old (Finish of stamp) }
        requires tied { AreTied self.old }
        ensures made { MakesFinish of.session self.old self.new }
        ensures tied { AreTied self.new }
        ensures ended { EndsAs of.session stamp self.old result }
    {
        let present = self.present.remove(of.place);
        self.rows.unseat(present.slot);
        self.table.free(present.slot);
        present
            .session
            .finish(alloc, stamp, Fate::ProgramEnd, self.events.as_slice())
    }
}

// A session that begins in a slot: its stream has its start, and it is open on no thread.
fn begin_session(
    alloc: Global,
    session: u32,
    slot: u32,
    config: Config,
    info: &TraceInfo,
) -> Result<Present, Fault>
    requires { slot < SESSIONS }
    ensures begun { IfOk result (HasBegun session slot config info.now) }
    ensures not_long { result ≢ Err TooLong }
{
    let seat = Seat {
        slot,
        id: u64::from(session),
        conn: NO_CONNECTION,
    };
    let sink = MemSink::new(Vec::new(alloc));
    let begun = match Session::start(alloc, sink, &[], seat, config, info, 0) {
        Ok(begun) => begun,
        Err((_, fault)) => return Err(fault),
    };
    Ok(Present {
        number: session,
        slot,
        session: begun,
        opened: BTreeMap::new(alloc),
    })
}
