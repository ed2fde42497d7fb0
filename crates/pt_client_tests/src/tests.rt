//! Words, and the bytes of a peer.
ghost use Rattle.std.specs.Prelude.{IfOk};
ghost use Rattle.pt_io.specs.Memory.{IsUnused};

use pt_client::{Called, client, command_of, greet, greet_of};
use pt_io::{MemCaller, MemDock, MemLink, MemSink, MemSource};
use std::alloc::{AllocError, Global};
use std::collections::VecDeque;
use std::sync::Wait;
use std::test::Fail;

// The OK reply with session 1.
const SESSION: &[u8; 28] = b"DOTNET_IPC_V1\0\x1c\0\xff\0\0\0\x01\0\0\0\0\0\0\0";

// The first ten bytes of a reply.
const CUT: &[u8; 10] = b"DOTNET_IPC";

// The error reply with code 0x80004005.
const REFUSED: &[u8; 24] = b"DOTNET_IPC_V1\0\x18\0\xff\xff\0\0\x05\x40\0\x80";

// What a program says of itself that has process id 1 and the cookie 00 to 0f.
const PROGRAM: &[u8; 78] =
    b"DOTNET_IPC_V1\0\x4e\0\xff\0\0\0\x01\0\0\0\0\0\0\0\x00\x01\x02\x03\x04\x05\x06\x07\x08\x09\x0a\x0b\x0c\x0d\x0e\x0f\x01\0\0\0\0\0\x06\0\0\0l\0i\0n\0u\0x\0\0\0\x04\0\0\0x\x006\x004\0\0\0";

// The stream of `examples/one_event.schedule`.
const STREAM: &[u8; 310] =
    b"Nettrace\x14\0\0\0!FastSerialization.1\x05\x05\x01\x04\0\0\0\x04\0\0\0\x05\0\0\0Trace\x06\xb2\x07\x01\0\x04\0\x01\0\0\0\0\0\0\0\0\0\0\0\0\0\0\0\0\0\0\xca\x9a;\0\0\0\0\x08\0\0\0\x01\0\0\0\x01\0\0\0\0\0\0\0\x06\x05\x05\x01\x02\0\0\0\x02\0\0\0\x0d\0\0\0MetadataBlock\x06;\0\0\0\0\x14\0\x01\0\0\0\0\0\0\0\0\0\0\0\0\0\0\0\0\0\xc0\0$\x01\0\0\0P\0\0\0\x01\0\0\0E\0\0\0\x01\0\0\0\0\0\0\0\0\0\0\0\x04\0\0\0\0\0\0\0\x06\x05\x05\x01\x02\0\0\0\x02\0\0\0\x0a\0\0\0EventBlock\x06\x1b\0\0\0\0\0\x14\0\x01\0d\0\0\0\0\0\0\0d\0\0\0\0\0\0\0\x07\x01\0\x01\0\x01d\x06\x05\x05\x01\x02\0\0\0\x02\0\0\0\x07\0\0\0SPBlock\x06\x18\0\0\0\0\xc8\0\0\0\0\0\0\0\x01\0\0\0\x01\0\0\0\0\0\0\0\x01\0\0\0\x06\x01";

// CollectTracing2 for one megabyte and no rundown, with the provider P, keyword 1 and level 4.
const COLLECT: &[u8; 57] =
    b"DOTNET_IPC_V1\0\x39\0\x02\x03\0\0\x01\0\0\0\x01\0\0\0\0\x01\0\0\0\x01\0\0\0\0\0\0\0\x04\0\0\0\x02\0\0\0P\0\0\0\0\0\0\0";

// StopTracing of session 7.
const STOP: &[u8; 28] = b"DOTNET_IPC_V1\0\x1c\0\x02\x01\0\0\x07\0\0\0\0\0\0\0";

// ProcessInfo.
const INFO: &[u8; 20] = b"DOTNET_IPC_V1\0\x14\0\x04\0\0\0";

/// A command's status, the peer's code, the place of what is wrong in its reply, and whether there was a peer.
type Ended = (u8, u32, u64, bool);

/// The words, what comes before and what comes at last of what the peer gives, and the number of the call of a peer that
/// fails, from 1, or 0; how the command ends, what it writes, and what it sends.
type Case = (
    &'static str,
    [&'static [u8]; 2],
    u64,
    Ended,
    &'static [u8],
    &'static [u8],
);

const CASES: [Case; 6] = [
    // The stream is written as it comes behind its reply.
    (
        "collect /x 1 P:1:4",
        [SESSION, STREAM],
        0,
        (0, 0, 0, true),
        STREAM,
        COLLECT,
    ),
    (
        "stop /x 007",
        [SESSION, b""],
        0,
        (0, 0, 0, true),
        b"stopped          1\n",
        STOP,
    ),
    (
        "ps /x",
        [PROGRAM, b""],
        0,
        (0, 0, 0, true),
        b"process          1 00010203-0405-0607-0809-0a0b0c0d0e0f - linux x64\n",
        INFO,
    ),
    // An error of the peer, a reply that is cut, and nobody to call.
    (
        "stop /x 7",
        [REFUSED, b""],
        0,
        (7, 0x8000_4005, 0, true),
        b"error: peer 80004005\n",
        STOP,
    ),
    (
        "stop /x 7",
        [CUT, b""],
        0,
        (8, 0, 10, true),
        b"error: reply at 10\n",
        STOP,
    ),
    ("stop /x 7", [SESSION, b""], 1, (6, 0, 0, false), b"", b""),
];

// With which a program says who it is that has process id 1 and the cookie 00 to 0f.
const ADVERT: &[u8; 34] =
    b"ADVR_V1\0\x00\x01\x02\x03\x04\x05\x06\x07\x08\x09\x0a\x0b\x0c\x0d\x0e\x0f\x01\0\0\0\0\0\0\0\0\0";

/// What comes before and what comes at last of what a program gives that calls; how the command ends, what it writes, and
/// what it sends.
type Greeted = ([&'static [u8]; 2], Ended, &'static [u8], &'static [u8]);

const GREETED: [Greeted; 6] = [
    (
        [ADVERT, PROGRAM],
        (0, 0, 0, true),
        b"process          1 00010203-0405-0607-0809-0a0b0c0d0e0f - linux x64\n",
        INFO,
    ),
    // Who does not say who it is is asked nothing.
    ([PROGRAM, b""], (8, 0, 0, true), b"error: reply at 0\n", b""),
    ([b"", b""], (8, 0, 0, true), b"error: reply at 0\n", b""),
    (
        [b"ADVR_V1", b""],
        (8, 0, 7, true),
        b"error: reply at 7\n",
        b"",
    ),
    // The place of what is wrong in a reply is counted from its own first byte.
    (
        [ADVERT, CUT],
        (8, 0, 10, true),
        b"error: reply at 10\n",
        INFO,
    ),
    (
        [ADVERT, REFUSED],
        (7, 0x8000_4005, 0, true),
        b"error: peer 80004005\n",
        INFO,
    ),
];

// Words that ask for nothing.
const OTHERS: [&[&str]; 13] = [
    &[],
    &["Ps", "/x"],
    &["ps"],
    &["ps", ""],
    &["ps", "--help"],
    &["ps", "/x", "/y"],
    &["stop", "/x", "18446744073709551616"],
    &["stop", "/x", "+1"],
    &["stop", "-x", "1"],
    &["collect", "/x", "1"],
    &["collect", "/x", "0", "P:1:4"],
    &["collect", "/x", "1", "P:1"],
    &["collect", "/x", "1", "-P:1:4"],
];

/// How a command ended, what it wrote, and what it sent.
#[derive(Drop)]
struct Told {
    ended: Ended,
    written: Vec<u8>,
    sent: Vec<u8>,
}

fn words_of(alloc: Global, words: &str) -> Result<Vec<String>, AllocError> {
    let mut owned = Vec::new(alloc);
    for word in words.split(' ') {
        owned.push(String::from_str(alloc, word)?)?;
    }
    Ok(owned)
}

fn link_of(alloc: Global, bytes: [&[u8]; 2]) -> Result<MemLink, AllocError>
    ensures { IfOk result IsUnused }
{
    let [first, last] = bytes;
    let mut given = first.to_vec(alloc)?;
    given.extend_from_slice(last)?;
    Ok(MemLink::new(
        MemSource::new(given, 16, Vec::new(alloc)),
        MemSink::new(Vec::new(alloc)),
    ))
}

// A caller that leads to one peer, which gives these bytes.
fn caller_of(alloc: Global, bytes: [&[u8]; 2], failing: u64) -> Result<MemCaller, AllocError> {
    let fails = [failing].to_vec(alloc)?;
    let mut links = VecDeque::new(alloc);
    links.push_back(link_of(alloc, bytes)?)?;
    Ok(MemCaller::new(links, fails))
}

// Carries out the command of these words, None where they are those of no command.
fn called(
    alloc: Global,
    words: &[String],
    output: &mut MemSink,
    caller: &mut MemCaller,
) -> Option<Called<MemLink>> {
    let Ok(Some(command)) = command_of(alloc, words) else {
        return None;
    };
    Some(client(alloc, &command, output, caller))
}

// How it ended, and what the peer took.
fn told_of(
    alloc: Global,
    called: &Option<Called<MemLink>>,
    output: &MemSink,
) -> Result<Told, AllocError> {
    let mut told = Told {
        ended: (u8::MAX, 0, 0, false),
        written: output.taken().to_vec(alloc)?,
        sent: Vec::new(alloc),
    };
    if let Some(Called { end, peer }) = called {
        told.ended = (end.status(), end.code(), end.at(), peer.is_some());
        if let Some(link) = peer {
            told.sent.extend_from_slice(link.taken())?;
        }
    }
    Ok(told)
}

fn run(alloc: Global, words: &str, bytes: [&[u8]; 2], failing: u64) -> Result<Told, AllocError> {
    let words = words_of(alloc, words)?;
    let mut caller = caller_of(alloc, bytes, failing)?;
    let mut output = MemSink::new(Vec::new(alloc));
    let called = called(alloc, &words, &mut output, &mut caller);
    told_of(alloc, &called, &output)
}

#[test]
fn a_command_sends_what_its_words_say_and_writes_what_comes_of_it(
    rt: HostRuntime,
) -> Result<(), Fail> {
    for (words, bytes, failing, ended, written, sent) in CASES {
        let told = run(rt.alloc(), words, bytes, failing)?;
        assert_eq!(rt;
            (told.ended, told.written.as_slice(), told.sent.as_slice()),
            (ended, written, sent)
        );
    }
    Ok(())
}

// A dock of two links that give these bytes, behind three quiet turns, whose turn with this number fails.
fn dock_of(
    alloc: Global,
    first: [&[u8]; 2],
    second: [&[u8]; 2],
    failing: u64,
) -> Result<MemDock, AllocError> {
    let fails = [failing].to_vec(alloc)?;
    let mut links = VecDeque::new(alloc);
    links.push_back(link_of(alloc, first)?)?;
    links.push_back(link_of(alloc, second)?)?;
    Ok(MemDock::new(links, 3, fails))
}

// What comes of who calls first.
fn greeted<R: Wait>(rt: &R, alloc: Global, dock: MemDock) -> Result<Told, AllocError> {
    let mut dock = dock;
    let mut output = MemSink::new(Vec::new(alloc));
    let called = Some(greet(rt, alloc, &mut output, &mut dock));
    told_of(alloc, &called, &output)
}

#[test]
fn the_first_program_that_calls_is_asked_what_it_is(rt: HostRuntime) -> Result<(), Fail> {
    for (bytes, ended, written, sent) in GREETED {
        let dock = dock_of(rt.alloc(), bytes, [ADVERT, PROGRAM], 0)?;
        let told = greeted(&rt, rt.alloc(), dock)?;
        assert_eq!(rt;
            (told.ended, told.written.as_slice(), told.sent.as_slice()),
            (ended, written, sent)
        );
    }
    Ok(())
}

#[test]
fn nobody_calls(rt: HostRuntime) -> Result<(), Fail> {
    let alloc = rt.alloc();
    let empty = MemDock::new(VecDeque::new(alloc), 3, Vec::new(alloc));
    let nobody = greeted(&rt, alloc, empty)?;
    let calls: [&[u8]; 2] = [ADVERT, PROGRAM];
    let failed = greeted(&rt, alloc, dock_of(alloc, calls, calls, 2)?)?;
    assert_eq!(rt;
        (
            nobody.ended,
            nobody.written.as_slice(),
            failed.ended,
            failed.written.as_slice()
        ),
        (
            (3, 0, 0, false),
            b"error: no peer\n".as_slice(),
            (6, 0, 0, false),
            b"".as_slice()
        )
    );
    Ok(())
}

fn path_of(alloc: Global, words: &[&str]) -> Result<Option<String>, AllocError> {
    let mut owned = Vec::new(alloc);
    for word in words {
        owned.push(String::from_str(alloc, word)?)?;
    }
    match greet_of(alloc, &owned)? {
        Some(target) => Ok(Some(String::from_str(alloc, target.path())?)),
        None => Ok(None),
    }
}

#[test]
fn greet_has_one_word_behind_it(rt: HostRuntime) -> Result<(), Fail> {
    let alloc = rt.alloc();
    let good = path_of(alloc, &["greet", "/x"])?;
    assert_eq!(rt; good.as_deref(), Some("/x"));
    for words in [
        ["greet"].as_slice(),
        &["greet", ""],
        &["greet", "/x", "/y"],
        &["Greet", "/x"],
        &["greet", "--help"],
    ] {
        assert!(rt; path_of(alloc, words)?.is_none());
    }
    Ok(())
}

fn ask_for_something(alloc: Global, words: &[&str]) -> Result<bool, AllocError> {
    let mut owned = Vec::new(alloc);
    for word in words {
        owned.push(String::from_str(alloc, word)?)?;
    }
    let command = command_of(alloc, &owned)?;
    Ok(command.is_some())
}

#[test]
fn other_words_ask_for_nothing(rt: HostRuntime) -> Result<(), Fail> {
    for words in OTHERS {
        assert!(rt; !ask_for_something(rt.alloc(), words)?);
    }
    Ok(())
}
