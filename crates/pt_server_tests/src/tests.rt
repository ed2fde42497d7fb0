//! Connections in memory, one after another, and what each is told.
ghost use Rattle.std.specs.Prelude.{◌≡◌, [], IfOk, IsTrue};
ghost use Rattle.ep_defs.specs.Session.{is_valid_facts};
ghost use Rattle.pt_io.specs.Memory.{IsUnused};
ghost use Rattle.ipc_body.specs.declared.request.Request.TheVariants as request;
ghost use Rattle.pt_server.specs.Connection.{HasAsked, Took};
ghost use Rattle.pt_server.specs.Unstarted.{HasAskedSession, IsUnstarted};

mod book;
mod malformed;

use book::Book;
use ep_defs::{Config, Facts, Items, Units, standard_info};
use ep_journal::limits::CONNECTIONS;
use ep_journal::{Decision, Journal};
use ipc_serve::codes::{OUT_OF_MEMORY, REFUSED};
use ipc_serve::session_reply;
use nt_write::Fault;
use pt_io::{Failed, Link, MemLink, MemSink, MemSource, OpenGate, Sink};
use pt_server::{Asked, ConnAnswer, ConnEnd, Desk, Process, Served, Unstarted};
use std::alloc::{AllocError, Global};
use std::marker::Brand;
use std::test::Fail;

// CollectTracing2 for 256 megabytes and a rundown, with three providers.
pub const COLLECT: [u8; 175] =
    *b"\x44\x4f\x54\x4e\x45\x54\x5f\x49\x50\x43\x5f\x56\x31\x00\xaf\x00\x02\x03\x00\x00\x00\x01\x00\x00\x01\x00\x00\x00\x01\x03\x00\x00\x00\xff\xff\xff\xff\xff\xff\xff\xff\x05\x00\x00\x00\x0b\x00\x00\x00\x53\x00\x61\x00\x6d\x00\x70\x00\x6c\x00\x65\x00\x2d\x00\x57\x00\x65\x00\x62\x00\x00\x00\x00\x00\x00\x00\x01\x00\x00\x00\x00\x00\x00\x00\x04\x00\x00\x00\x0d\x00\x00\x00\x53\x00\x61\x00\x6d\x00\x70\x00\x6c\x00\x65\x00\x2d\x00\x53\x00\x74\x00\x6f\x00\x72\x00\x65\x00\x00\x00\x00\x00\x00\x00\xff\xff\xff\xff\xff\xff\xff\xff\x05\x00\x00\x00\x11\x00\x00\x00\x55\x00\x6e\x00\x6b\x00\x6e\x00\x6f\x00\x77\x00\x6e\x00\x2d\x00\x50\x00\x72\x00\x6f\x00\x76\x00\x69\x00\x64\x00\x65\x00\x72\x00\x00\x00\x00\x00\x00\x00";

const INFO: [u8; 20] = *b"DOTNET_IPC_V1\0\x14\0\x04\0\0\0";

const STOP_1: [u8; 28] = *b"DOTNET_IPC_V1\0\x1c\0\x02\x01\0\0\x01\0\0\0\0\0\0\0";

const STOP_7: [u8; 28] = *b"DOTNET_IPC_V1\0\x1c\0\x02\x01\0\0\x07\0\0\0\0\0\0\0";

// A process without a command line, on linux and x64.
const DESCRIPTION: [u8; 78] =
    *b"\x44\x4f\x54\x4e\x45\x54\x5f\x49\x50\x43\x5f\x56\x31\x00\x4e\x00\xff\x00\x00\x00\x01\x00\x00\x00\x00\x00\x00\x00\x00\x01\x02\x03\x04\x05\x06\x07\x08\x09\x0a\x0b\x0c\x0d\x0e\x0f\x01\x00\x00\x00\x00\x00\x06\x00\x00\x00\x6c\x00\x69\x00\x6e\x00\x75\x00\x78\x00\x00\x00\x04\x00\x00\x00\x78\x00\x36\x00\x34\x00\x00\x00";

// The cookie in it.
const COOKIE: [u8; 16] = [0, 1, 2, 3, 4, 5, 6, 7, 8, 9, 10, 11, 12, 13, 14, 15];

const SESSION_1: [u8; 28] = *b"DOTNET_IPC_V1\0\x1c\0\xff\0\0\0\x01\0\0\0\0\0\0\0";

const STOP_5: [u8; 28] = *b"DOTNET_IPC_V1\0\x1c\0\x02\x01\0\0\x05\0\0\0\0\0\0\0";

const SESSION_3: [u8; 28] = *b"DOTNET_IPC_V1\0\x1c\0\xff\0\0\0\x03\0\0\0\0\0\0\0";

const ERROR_REFUSED: [u8; 24] = *b"DOTNET_IPC_V1\0\x18\0\xff\xff\0\0\x05\x40\0\x80";

const ERROR_MEMORY: [u8; 24] = *b"DOTNET_IPC_V1\0\x18\0\xff\xff\0\0\x0e\0\x07\x80";

/// A peer: what its link gives, how much at most in a read, the numbers of the reads and the writes that fail, and what
/// such a write keeps.
#[derive(Clone, Copy)]
pub struct Peer<'a> {
    pub bytes: &'a [u8],
    pub most: usize,
    pub read_fails: &'a [u64],
    pub write_fails: &'a [u64],
    pub keep: usize,
    /// How the session that it asks for starts.
    pub start: Start,
}

/// How a session starts.
#[derive(Clone, Copy, PartialEq, Eq)]
pub enum Start {
    Well,
    /// Memory is missing before its reply is written.
    Silent,
    /// Memory is missing once its reply was written.
    Cut,
}

/// A peer whose link never fails and gives all in one read, or one byte in each.
pub fn sound_peer(bytes: &[u8], most: usize) -> Peer<'_> {
    Peer {
        bytes,
        most,
        read_fails: &[],
        write_fails: &[],
        keep: 0,
        start: Start::Well,
    }
}

/// What came of all connections.
#[derive(Drop)]
pub struct Told {
    /// The number of each connection that is no session, how it ended, and what its link took.
    pub ends: Vec<(u32, ConnAnswer, Vec<u8>)>,
    pub decisions: Vec<Decision>,
    /// The id, the slot and the chunks of each session that began.
    pub begun: Vec<(u64, u32, u32)>,
    /// How many slots are held in the end.
    pub held: u32,
}

fn units(alloc: Global, text: &[u8]) -> Result<Units, AllocError> {
    let mut units = Vec::new(alloc);
    for byte in text {
        units.push(u16::from(*byte))?;
    }
    Ok(Items::new(units))
}

fn link_of(alloc: Global, peer: &Peer<'_>) -> Result<MemLink, AllocError>
    ensures { IfOk result IsUnused }
{
    let source = MemSource::new(
        peer.bytes.to_vec(alloc)?,
        peer.most.max(1),
        peer.read_fails.to_vec(alloc)?,
    );
    let sink = MemSink::partial(peer.write_fails.to_vec(alloc)?, peer.keep);
    Ok(MemLink::new(source, sink))
}

// The link of a session for whose start memory is missing, once its reply was written where it is cut.
fn unstarted<N: Process, L: Link>(config: &Config, link: L, id: u64, cut: bool) -> (L, Unstarted)
    requires asked { HasAsked (L.read_side link) (request.Collect config.now) }
    requires silent { Took N.greeting [] (L.write_side link) }
    ensures asked { HasAskedSession (L.read_side result.0) }
    ensures why { IsUnstarted N.facts N.greeting (L.write_side result.0) result.1 }
{
    let mut served = Served::<N, L>::new(link, config);
    if !cut {
        return served.unstarted(Fault::OutOfMemory);
    }
    match served.write(&session_reply(id)) {
        Ok(()) => served.unstarted(Fault::OutOfMemory),
        Err(Failed) => served.unstarted(Fault::WriteFault),
    }
}

// The next connection, where one is left. A session that begins is noted.
fn connect<N: Process>(
    desk: &mut Desk<N, (), (), Book, MemLink>,
    alloc: Global,
    facts: &Facts,
    peer: &Peer<'_>,
    sessions: &mut Vec<(u64, u32, u32)>,
) -> Result<(), AllocError>
    requires facts { facts.now ≡ N.facts }
    requires valid { IsTrue (is_valid_facts facts.now) }
    requires greeting { N.greeting ≡ [] }
{
    if desk.decider.journal.decided() as usize >= CONNECTIONS {
        return Ok(());
    }
    let link = link_of(alloc, peer)?;
    let Some(asked) = desk.answer(alloc, facts, &OpenGate, link) else {
        return Ok(());
    };
    let Asked {
        begun,
        config,
        link,
        ..
    } = asked;
    if peer.start == Start::Well {
        sessions.push((begun.id, begun.slot, config.chunks))?;
        return Ok(());
    }
    let cut = peer.start == Start::Cut;
    let (link, why) = unstarted::<N, MemLink>(&config, link, begun.id, cut);
    desk.fail(&OpenGate, begun, link, why);
    Ok(())
}

// How these connections ended, and what their links took.
fn ends_of(
    alloc: Global,
    conns: &[ConnEnd<MemLink>],
) -> Result<Vec<(u32, ConnAnswer, Vec<u8>)>, AllocError> {
    let mut ends = Vec::new(alloc);
    for end in conns {
        ends.push((end.conn, end.answer, end.link.taken().to_vec(alloc)?))?;
    }
    Ok(ends)
}

fn serve_all<N: Process>(
    alloc: Global,
    facts: &Facts,
    peers: &[Peer<'_>],
) -> Result<Told, AllocError>
    requires facts { facts.now ≡ N.facts }
    requires valid { IsTrue (is_valid_facts facts.now) }
    requires greeting { N.greeting ≡ [] }
{
    let journal = Journal::new(alloc)?;
    let mut desk = Desk::<N, (), (), Book, MemLink>::new(alloc, Book { journal })?;
    let mut begun = Vec::new(alloc);
    for peer in peers {
        connect::<N>(&mut desk, alloc, facts, peer, &mut begun)?;
    }
    let (decider, conns) = desk.finish();
    Ok(Told {
        ends: ends_of(alloc, &conns)?,
        decisions: decider.journal.decisions().as_slice().to_vec(alloc)?,
        begun,
        held: decider.journal.held(),
    })
}

/// What these peers are told, one after another, by the process of the description.
pub fn serve(alloc: Global, peers: &[Peer<'_>]) -> Result<Told, AllocError> {
    let facts = Facts {
        process_id: 1,
        cookie: COOKIE,
        command_line: units(alloc, b"")?,
        system: units(alloc, b"linux")?,
        arch: units(alloc, b"x64")?,
        info: standard_info(1, 1),
    };
    if !facts.is_valid() {
        return Err(AllocError);
    }
    serve_all::<Brand>(alloc, &facts, peers)
}

// Whether these connections ended so, with these replies.
fn are(ends: &[(u32, ConnAnswer, Vec<u8>)], wanted: &[(u32, ConnAnswer, &[u8])]) -> bool {
    let mut agree = ends.len() == wanted.len();
    for ((conn, answer, taken), want) in ends.iter().zip(wanted) {
        agree = agree & ((*conn, *answer, taken.as_slice()) == *want);
    }
    agree
}

const ERROR: ConnAnswer = ConnAnswer::Error { code: REFUSED };

#[test]
fn a_process_describes_itself_and_sessions_begin_and_stop_once(
    rt: HostRuntime,
) -> Result<(), Fail> {
    let ends: [(u32, ConnAnswer, &[u8]); 4] = [
        (1, ConnAnswer::Info, &DESCRIPTION),
        (2, ERROR, &ERROR_REFUSED),
        (4, ConnAnswer::Stopped { session: 1 }, &SESSION_1),
        (5, ERROR, &ERROR_REFUSED),
    ];
    for most in [65_536usize, 1] {
        let peers = [
            sound_peer(&INFO, most),
            sound_peer(&STOP_7, most),
            sound_peer(&COLLECT, most),
            sound_peer(&STOP_1, most),
            sound_peer(&STOP_1, most),
        ];
        let told = serve(rt.alloc(), &peers)?;
        assert_eq!(rt;
            (are(&told.ends, &ends), told.begun.as_slice(), told.held),
            (true, [(1, 0, 4_096)].as_slice(), 1)
        );
    }
    Ok(())
}

// The number of a connection, how it ended, and whether its link took the error of a refusal.
fn refusal(end: &(u32, ConnAnswer, Vec<u8>)) -> (u32, ConnAnswer, bool) {
    (end.0, end.1, end.2.as_slice() == ERROR_REFUSED.as_slice())
}

// The same of the first and of the last connection.
fn outer(ends: &[(u32, ConnAnswer, Vec<u8>)]) -> Option<[(u32, ConnAnswer, bool); 2]> {
    Some([refusal(ends.first()?), refusal(ends.last()?)])
}

#[test]
fn the_65th_session_is_refused_and_500_connections_are_taken(rt: HostRuntime) -> Result<(), Fail> {
    for most in [65_536usize, 1] {
        let peers = vec![in rt.alloc(); sound_peer(&COLLECT, most); 510]?;
        let told = serve(rt.alloc(), &peers)?;
        assert_eq!(rt;
            (
                outer(&told.ends),
                [told.ends.len(), told.begun.len(), told.decisions.len()],
                told.held,
            ),
            (
                Some([(65, ERROR, true), (500, ERROR, true)]),
                [436, 64, 500],
                64,
            )
        );
    }
    Ok(())
}

// The same peer, of whose link these reads and these writes fail; such a write keeps this many bytes.
fn failing(
    peer: Peer<'static>,
    read_fails: &'static [u64],
    write_fails: &'static [u64],
    keep: usize,
) -> Peer<'static> {
    Peer {
        read_fails,
        write_fails,
        keep,
        ..peer
    }
}

// Peers whose links fail, and sessions that do not start.
fn faulty_peers() -> [Peer<'static>; 12] {
    let collect = sound_peer(&COLLECT, 10);
    let info = sound_peer(&INFO, 10);
    let stop = sound_peer(&STOP_5, 65_536);
    let start = Start::Silent;
    let silent = Peer { start, ..collect };
    let start = Start::Cut;
    let cut = Peer { start, ..collect };
    [
        // The first read fails, and then the last.
        failing(info, &[1], &[], 0),
        failing(collect, &[18], &[], 0),
        // The reply is not taken at all, or in part.
        failing(info, &[], &[1], 0),
        failing(info, &[], &[1], 10),
        // There is no second write.
        failing(info, &[], &[2], 0),
        // A start fails before its reply, and the error is not taken.
        silent,
        failing(silent, &[], &[1], 3),
        // A start fails after its reply, or with it: no error is told.
        cut,
        failing(cut, &[], &[1], 3),
        // The ticket stands, though its reply was not taken.
        collect,
        failing(stop, &[], &[1], 0),
        stop,
    ]
}

#[test]
fn each_fault_ends_its_own_connection(rt: HostRuntime) -> Result<(), Fail> {
    let told = serve(rt.alloc(), &faulty_peers())?;
    let memory = ConnAnswer::Error {
        code: OUT_OF_MEMORY,
    };
    let ends: [(u32, ConnAnswer, &[u8]); 11] = [
        (1, ConnAnswer::ReadFault, b""),
        (2, ConnAnswer::ReadFault, b""),
        (3, ConnAnswer::WriteFault, b""),
        (4, ConnAnswer::WriteFault, &DESCRIPTION[..10]),
        (5, ConnAnswer::Info, &DESCRIPTION),
        (6, memory, &ERROR_MEMORY),
        (7, ConnAnswer::WriteFault, &ERROR_MEMORY[..3]),
        (8, memory, &SESSION_3),
        (9, ConnAnswer::WriteFault, &SESSION_3[..3]),
        (11, ConnAnswer::WriteFault, b""),
        (12, ERROR, &ERROR_REFUSED),
    ];
    let mut decisions = [Decision::Nothing; 12];
    decisions[9] = Decision::Accepted { id: 5 };
    decisions[10] = Decision::Ticket { id: 5 };
    decisions[11] = Decision::Refused { id: 5 };
    assert_eq!(rt;
        (
            are(&told.ends, &ends),
            told.begun.as_slice(),
            told.decisions.as_slice(),
            told.held,
        ),
        (true, [(5, 0, 4_096)].as_slice(), &decisions[..], 1)
    );
    Ok(())
}
