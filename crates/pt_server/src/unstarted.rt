//! Sessions whose start fails.
ghost use Rattle.ep_journal.specs.declared.decision.Decision.TheVariants as decision;
ghost use Rattle.pt_server.specs.Connection.{IsEnded};
ghost use Rattle.pt_server.specs.Unstarted.{HasAskedSession, IsUnstarted};

use crate::desk::ConnAnswer;
use crate::process::Process;
use crate::reply::{Due, tell};
use ipc_serve::codes::OUT_OF_MEMORY;
use pt_io::Link;

/// Why a session did not start.
#[derive(Clone, Copy, Debug, PartialEq, Eq)]
pub enum Unstarted {
    /// Memory was missing before anything was written.
    Silent,
    /// Memory was missing once a part of the reply and the stream's start was written.
    Cut,
    /// A write of the link failed.
    WriteFault,
}

/// Ends the connection of a session that did not start: it is told so where nothing was written before.
pub(crate) fn end_unstarted<N: Process, L: Link>(link: &mut L, why: Unstarted) -> ConnAnswer
    requires asked { HasAskedSession (L.read_side link.old) }
    requires why { IsUnstarted N.facts N.greeting (L.write_side link.old) why }
    ensures ended { IsEnded N.facts N.greeting decision.Nothing result (L.read_side link.new)
        (L.write_side link.new) }
{
    match why {
        Unstarted::Silent => tell::<N, L>(
            link,
            &Due::Error {
                code: OUT_OF_MEMORY,
            },
        ),
        Unstarted::Cut => {
            link.shut();
            ConnAnswer::Error {
                code: OUT_OF_MEMORY,
            }
        }
        Unstarted::WriteFault => {
            link.shut();
            ConnAnswer::WriteFault
        }
    }
}
