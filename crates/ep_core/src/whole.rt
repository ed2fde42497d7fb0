//! A whole write, made in the tables at once.
//!
//! It is lent: none of it is kept, since nothing asks for a write that has ended. Whoever calls knows that its steps can be
//! made, so that nothing is judged.
ghost use Rattle.ep_core.specs.state.Whole.{CanWriteIn, WritesIn};

use ep_core_laws::laws::{
    a_due_write_can_be_taken, a_machine_follows_a_begin, a_machine_follows_a_show,
    a_machine_follows_an_end, a_write_that_begins_has_a_number,
};
use ep_defs::Write;
use ep_tables::laws::what_a_step_needs_is_there;
use ep_tables::{OfSession, OnBoth, OnRow, Tables};

/// Begins a write of a thread, shows it to these sessions, and ends it.
pub(crate) fn make_whole(
    tables: &mut Tables,
    thread: u32,
    stamp: u64,
    write: &Write,
    sessions: &[u32],
)
    requires { CanWriteIn thread stamp write.now sessions.now tables.old }
    ensures { WritesIn thread stamp write.now sessions.now tables.old tables.new }
{
    what_a_step_needs_is_there();
    a_write_that_begins_has_a_number();
    a_due_write_can_be_taken();
    a_machine_follows_a_begin();
    a_machine_follows_a_show();
    a_machine_follows_an_end();
    let Some(row) = tables.row_of(thread) else {
        unreachable!();
    };
    let on = OnRow { thread, row };
    tables.begin(on, stamp, write);
    for session in sessions {
        let Some(place) = tables.place_of(*session) else {
            unreachable!();
        };
        let of = OfSession {
            session: *session,
            place,
        };
        tables.show(OnBoth { of, on }, write);
    }
    tables.end(on);
}
