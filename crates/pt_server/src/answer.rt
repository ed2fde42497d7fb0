//! What becomes of a connection.
ghost use Rattle.std.specs.Prelude.{◌≡◌, ◌<◌, [], length, IsTrue};
ghost use Rattle.ep_defs.specs.Session.{is_valid_facts};
ghost use Rattle.ep_journal.specs.declared.limits.TheConstants.{CONNECTIONS};
ghost use Rattle.pt_server.specs.Connection.{IsFresh, Took};
ghost use Rattle.pt_server.specs.Answered.{IsVerdict, IsAnswered};

use crate::deciding::{Begun, Deciding};
use crate::desk::ConnAnswer;
use crate::hear::{Heard, hear};
use crate::process::Process;
use crate::reply::{Due, tell};
use ep_defs::{Config, Facts};
use ipc_body::Request;
use ipc_serve::codes::{OUT_OF_MEMORY, REFUSED};
use ipc_serve::info_reply;
use pt_io::Link;
use std::alloc::Global;

/// An accepted request for a session. Its link has taken nothing but the greeting.
#[derive(Drop)]
pub struct Asked<H, F, L> {
    /// The connection that asked, from 1.
    pub conn: u32,
    pub begun: Begun<H, F>,
    /// What the session was asked for.
    pub config: Config,
    pub link: L,
}

/// What was decided on a connection.
#[derive(Drop)]
pub(crate) enum Verdict<H, F> {
    Tell(Due),
    /// A read of its link failed: it is told nothing.
    Silence,
    Begin { begun: Begun<H, F>, config: Config },
}

/// What became of a connection.
#[derive(Drop)]
pub(crate) enum Answered<H, F, L> {
    Ended {
        answer: ConnAnswer,
        link: L,
    },
    Begins {
        begun: Begun<H, F>,
        config: Config,
        link: L,
    },
}

/// Reads the request of a link, decides on it and replies, all but to a session that begins.
pub(crate) fn answer<N: Process, H: Drop, F: Drop, D: Deciding<H, F>, L: Link + Drop>(
    alloc: Global,
    decider: &mut D,
    facts: &Facts,
    link: L,
) -> Answered<H, F, L>
    requires facts { (facts.now ≡ N.facts) × IsTrue (is_valid_facts facts.now) }
    requires fresh { IsFresh N.greeting (L.given link) (L.taken link) (L.read_faults link)
        (L.write_faults link) }
    requires open { D.is_open decider.old }
    requires room { length (D.decisions decider.old) < CONNECTIONS }
    ensures answered { IsAnswered L.read_side L.write_side N.facts N.greeting (D.begins decider.new)
        (D.decisions decider.old) (D.decisions decider.new) result }
    ensures same { D.same decider.old decider.new }
{
    let mut link = link;
    match judge::<N, H, F, D, L>(alloc, decider, facts, &mut link) {
        Verdict::Tell(due) => {
            let answer = tell::<N, L>(&mut link, &due);
            Answered::Ended { answer, link }
        }
        Verdict::Silence => {
            link.shut();
            let answer = ConnAnswer::ReadFault;
            Answered::Ended { answer, link }
        }
        Verdict::Begin { begun, config } => Answered::Begins {
            begun,
            config,
            link,
        },
    }
}

// Reads the request of a link and decides on it. What takes memory is done before the decision, so that none is taken
// where a lock is held.
fn judge<N: Process, H: Drop, F: Drop, D: Deciding<H, F>, L: Link>(
    alloc: Global,
    decider: &mut D,
    facts: &Facts,
    link: &mut L,
) -> Verdict<H, F>
    requires facts { (facts.now ≡ N.facts) × IsTrue (is_valid_facts facts.now) }
    requires none { (L.given link.old ≡ []) × (L.read_faults link.old ≡ 0) }
    requires open { D.is_open decider.old }
    requires room { length (D.decisions decider.old) < CONNECTIONS }
    ensures verdict { IsVerdict N.facts (D.begins decider.new) (D.decisions decider.old)
        (D.decisions decider.new) (L.read_side link.new) result }
    ensures same { D.same decider.old decider.new }
    ensures took { L.write_side link.new ≡ L.write_side link.old }
{
    match hear(alloc, link) {
        Heard::Request(Request::Collect { config }) => match decider.accept() {
            Some(begun) => Verdict::Begin { begun, config },
            None => Verdict::Tell(Due::Error { code: REFUSED }),
        },
        Heard::Request(Request::Stop { id }) => {
            if decider.stop(id) {
                Verdict::Tell(Due::Stopped { session: id })
            } else {
                Verdict::Tell(Due::Error { code: REFUSED })
            }
        }
        Heard::Request(Request::Info) => match info_reply(alloc, facts) {
            Ok(reply) => {
                decider.pass();
                Verdict::Tell(Due::Info { reply })
            }
            Err(_) => {
                decider.pass();
                Verdict::Tell(Due::Error {
                    code: OUT_OF_MEMORY,
                })
            }
        },
        Heard::Refused { code } => {
            decider.pass();
            Verdict::Tell(Due::Error { code })
        }
        Heard::Lost => {
            decider.pass();
            Verdict::Silence
        }
    }
}
