//! What a connection is told.
ghost use Rattle.std.specs.Prelude.{◌≡◌, [], OnOk, OnErr};
ghost use Rattle.pt_server.specs.Connection.{Took, TookCut, IsTold};
ghost use Rattle.pt_server.specs.Reply.{answer_by, IsReply};

use crate::desk::ConnAnswer;
use crate::process::Process;
use ep_defs::Bytes;
use ipc_serve::{error_reply, session_reply};
use pt_io::{Failed, Link};

/// The answer that is due on a connection, with what takes memory of its reply.
#[derive(Debug, Drop)]
pub(crate) enum Due {
    Error { code: u32 },
    Info { reply: Bytes },
    Stopped { session: u64 },
}

impl Due {
    fn answer(&self) -> ConnAnswer
        ensures { result ≡ answer_by self.now }
    {
        match self {
            Due::Error { code } => ConnAnswer::Error { code: *code },
            Due::Info { .. } => ConnAnswer::Info,
            Due::Stopped { session } => ConnAnswer::Stopped { session: *session },
        }
    }
}

/// Tells a connection its answer, by one write of the whole reply, and then says that no more will come.
pub(crate) fn tell<N: Process, L: Link>(link: &mut L, due: &Due) -> ConnAnswer
    requires silent { Took N.greeting [] (L.write_side link.old) }
    requires reply { IsReply N.facts due.now }
    ensures told { IsTold N.facts N.greeting (answer_by due.now) result (L.write_side link.new) }
    ensures gave { L.read_side link.new ≡ L.read_side link.old }
{
    let written = match due {
        Due::Error { code } => put::<N, L>(link, &error_reply(*code)),
        Due::Info { reply } => put::<N, L>(link, reply.as_slice()),
        Due::Stopped { session } => put::<N, L>(link, &session_reply(*session)),
    };
    link.shut();
    match written {
        Ok(()) => due.answer(),
        Err(Failed) => ConnAnswer::WriteFault,
    }
}

// Writes to a link that has taken nothing.
fn put<N: Process, L: Link>(link: &mut L, bytes: &[u8]) -> Result<(), Failed>
    requires silent { Took N.greeting [] (L.write_side link.old) }
    ensures took { OnOk result (Took N.greeting bytes.now (L.write_side link.new)) }
    ensures cut { OnErr result (TookCut N.greeting bytes.now (L.write_side link.new)) }
    ensures gave { L.read_side link.new ≡ L.read_side link.old }
{
    link.write(bytes)
}
