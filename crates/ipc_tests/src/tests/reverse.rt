//! The message with which a program says who it is, and the calls of a tool as a dock.
ghost use Rattle.std.specs.Prelude.{IfOk};
ghost use Rattle.pt_io.specs.Memory.{IsUnused};

use ep_defs::{Facts, Items, TraceInfo};
use ipc_reverse::{ReverseDock, TakenAdvert, advert, take_advert};
use pt_io::{Arrival, Dock, Failed, MemCaller, MemLink, MemSink, MemSource};
use std::alloc::{AllocError, Global};
use std::collections::VecDeque;
use std::test::Fail;

// The message of process 1 with the cookie 0 to 15.
const MESSAGE: [u8; 34] =
    *b"ADVR_V1\0\x00\x01\x02\x03\x04\x05\x06\x07\x08\x09\x0a\x0b\x0c\x0d\x0e\x0f\x01\0\0\0\0\0\0\0\0\0";

const COOKIE: [u8; 16] = [0, 1, 2, 3, 4, 5, 6, 7, 8, 9, 10, 11, 12, 13, 14, 15];

// A program of this process id.
fn program(alloc: Global, process_id: u64) -> Facts {
    Facts {
        process_id,
        cookie: COOKIE,
        command_line: Items::new(Vec::new(alloc)),
        system: Items::new(Vec::new(alloc)),
        arch: Items::new(Vec::new(alloc)),
        info: TraceInfo {
            date: [0; 8],
            sync: 0,
            frequency: 1,
            pointer_size: 8,
            process_id: 0,
            processors: 1,
            rate: 0,
        },
    }
}

#[test]
fn a_program_says_who_it_is_in_34_bytes(rt: HostRuntime) -> Result<(), Fail> {
    let alloc = rt.alloc();
    let other = advert(&program(alloc, 0x0102_0304_0506_0708));
    assert_eq!(rt;
        (advert(&program(alloc, 1)), other.split_at(24).1),
        (MESSAGE, [8, 7, 6, 5, 4, 3, 2, 1, 0, 0].as_slice())
    );
    Ok(())
}

#[test]
fn the_message_is_read_whatever_follows_it(rt: HostRuntime) -> Result<(), Fail> {
    let alloc = rt.alloc();
    let is = TakenAdvert::Advert {
        cookie: COOKIE,
        process_id: 1,
    };
    assert_eq!(rt; take_advert(&MESSAGE), is);
    let mut more = MESSAGE.to_vec(alloc)?;
    more.extend_from_slice(b"DOTNET_IPC_V1")?;
    assert_eq!(rt; take_advert(&more), is);
    let mut reserved = MESSAGE;
    reserved[32] = 7;
    reserved[33] = 9;
    assert_eq!(rt; take_advert(&reserved), is);
    Ok(())
}

// What the first so many bytes say.
fn cut(bytes: &[u8; 34], there: usize) -> TakenAdvert {
    take_advert(bytes.get(..there).unwrap_or(&[]))
}

// The message with another byte at this place.
fn with_other(place: usize) -> [u8; 34] {
    let mut other = MESSAGE;
    if let Some(byte) = other.get_mut(place) {
        *byte = b'x';
    }
    other
}

#[test]
fn other_bytes_are_no_message(rt: HostRuntime) -> Result<(), Fail> {
    for there in 0..34 {
        assert_eq!(rt; cut(&MESSAGE, there), TakenAdvert::BadAdvert { at: there });
    }
    for place in 0..8 {
        let other = with_other(place);
        for there in 0..35 {
            let at = if there < 8 { there } else { 0 };
            assert_eq!(rt; cut(&other, there), TakenAdvert::BadAdvert { at });
        }
    }
    Ok(())
}

// What a dock of calls came to.
#[derive(Drop)]
struct Turns {
    // A letter for each turn: a link, nobody will come, or failed.
    turns: Vec<u8>,
    // What the links took that came, one after another.
    taken: Vec<u8>,
    // What the link took that is kept.
    kept: Option<Vec<u8>>,
}

// Asks a dock of at most so many calls four times. Its caller has two links, the first of which fails at these writes and takes
// so many bytes then, and it fails at these calls.
fn four_turns(
    alloc: Global,
    writes: &[u64],
    keep: usize,
    calls: &[u64],
    most: u32,
) -> Result<Turns, AllocError> {
    let mut links = VecDeque::new(alloc);
    links.push_back(link_of(alloc, writes, keep)?)?;
    links.push_back(link_of(alloc, &[], 0)?)?;
    let mut caller = MemCaller::new(links, calls.to_vec(alloc)?);
    let mut dock = ReverseDock::new(&mut caller, "/x", MESSAGE, most);
    let mut turns = Vec::new(alloc);
    let mut taken = Vec::new(alloc);
    for _ in 0..4 {
        match dock.next() {
            Ok(Arrival::Link(link)) => {
                turns.push(b'L')?;
                taken.extend_from_slice(link.taken())?;
            }
            Ok(Arrival::Quiet) => turns.push(b'Q')?,
            Ok(Arrival::Closed) => turns.push(b'C')?,
            Err(Failed) => turns.push(b'F')?,
        }
    }
    let kept = match dock.end() {
        Some(link) => Some(link.taken().to_vec(alloc)?),
        None => None,
    };
    Ok(Turns { turns, taken, kept })
}

// A link that fails at these writes and takes so many bytes then.
fn link_of(alloc: Global, writes: &[u64], keep: usize) -> Result<MemLink, AllocError>
    ensures { IfOk result IsUnused }
{
    let source = MemSource::new(Vec::new(alloc), 1, Vec::new(alloc));
    let sink = MemSink::partial(writes.to_vec(alloc)?, keep);
    Ok(MemLink::new(source, sink))
}

#[test]
fn each_link_takes_the_message_before_it_comes(rt: HostRuntime) -> Result<(), Fail> {
    let both = four_turns(rt.alloc(), &[], 0, &[], 2)?;
    assert_eq!(rt;
        (
            both.turns.as_slice(),
            (both.taken.get(..34), both.taken.get(34..)),
            both.kept.is_none()
        ),
        (
            b"LLCC".as_slice(),
            (Some(MESSAGE.as_slice()), Some(MESSAGE.as_slice())),
            true
        )
    );
    Ok(())
}

/// The numbers of the calls that fail, how many links there are to be at most, and a letter for each turn.
const TURNS: [(&[u64], u32, &[u8]); 5] = [
    // Nobody is called after the last link.
    (&[], 1, b"LCCC"),
    (&[], 3, b"LLFF"),
    (&[], 0, b"CCCC"),
    // A call that fails is no link.
    (&[1], 2, b"FLLC"),
    (&[1, 2, 3, 4], 2, b"FFFF"),
];

#[test]
fn a_tool_is_called_until_it_has_as_many_links_as_it_is_to_have(
    rt: HostRuntime,
) -> Result<(), Fail> {
    for (calls, most, wanted) in TURNS {
        let told = four_turns(rt.alloc(), &[], 0, calls, most)?;
        assert_eq!(rt; told.turns.as_slice(), wanted);
    }
    Ok(())
}

#[test]
fn a_link_that_takes_a_part_of_the_message_is_kept(rt: HostRuntime) -> Result<(), Fail> {
    for keep in [0, 10, 33] {
        let cut = four_turns(rt.alloc(), &[1], keep, &[], 2)?;
        assert_eq!(rt;
            (
                cut.turns.as_slice(),
                cut.taken.as_slice(),
                cut.kept.as_deref()
            ),
            (b"FCCC".as_slice(), b"".as_slice(), MESSAGE.get(..keep))
        );
    }
    Ok(())
}
