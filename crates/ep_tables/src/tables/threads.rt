//! Steps that a thread makes by itself.
ghost use Rattle.std.specs.Prelude.{◌≡◌, OnOk};
ghost use Rattle.ep_tables.specs.Judged.{IsReady};
ghost use Rattle.ep_tables.specs.declared.judged.Judged.TheVariants.{Enter, Leave, Begin, Show, End};
ghost use Rattle.ep_tables.specs.Made.{MakesBegin, MakesEnd, MakesLeave, MakesEnter, MakesShow, CanTake, HasNumber};
ghost use Rattle.ep_tables.specs.Tied.{AreTied};

use crate::judged::{OnBoth, OnRow};
use crate::tables::{Tables, near_place};
use ep_defs::Write;
use std::alloc::AllocError;

impl Tables {
    /// Gives a thread that comes its row.
    pub fn enter(&mut self, on: OnRow) -> Result<(), AllocError>
        requires ready { IsReady self.old (Enter on) }
        requires tied { AreTied self.old }
        ensures made { OnOk result (MakesEnter on.thread self.old self.new) }
        ensures tied { OnOk result (AreTied self.new) }
    {
        self.threads.insert(on.thread, on.row)?;
        self.near[near_place(on.thread)] = on;
        self.rows.enter(on.row, u64::from(on.thread));
        self.last_thread = on.thread;
        Ok(())
    }

    /// A thread makes no more writes.
    pub fn leave(&mut self, on: OnRow)
        requires ready { IsReady self.old (Leave on) }
        requires tied { AreTied self.old }
        ensures made { MakesLeave on.thread self.old self.new }
        ensures tied { AreTied self.new }
    {
        self.rows.leave(on.row);
    }

    /// Begins a write of a thread.
    pub fn begin(&mut self, on: OnRow, stamp: u64, write: &Write)
        requires ready { IsReady self.old (Begin on stamp write.now) }
        requires tied { AreTied self.old }
        requires few { HasNumber self.old on.row }
        ensures made { MakesBegin on.thread stamp write.now self.old self.new }
        ensures tied { AreTied self.new }
    {
        self.rows.begin(on.row, stamp, write);
        self.begins += 1;
    }

    /// Shows the write of a thread to a session that is due.
    pub fn show(&mut self, both: OnBoth, write: &Write)
        requires ready { IsReady self.old (Show both) }
        requires tied { AreTied self.old }
        requires room { CanTake both.on.thread both.of.session write.now self.old }
        ensures made { MakesShow both.on.thread both.of.session write.now self.old self.new }
        ensures tied { AreTied self.new }
    {
        let slot = self.present[both.of.place].slot;
        self.rows.show(both.on.row, slot, write);
    }

    /// Ends the write of a thread.
    pub fn end(&mut self, on: OnRow)
        requires ready { IsReady self.old (End on) }
        requires tied { AreTied self.old }
        ensures made { MakesEnd on.thread self.old self.new }
        ensures tied { AreTied self.new }
    {
        self.rows.end(on.row);
    }
}
