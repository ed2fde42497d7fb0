//! Streams by calls of the exports, against bytes that a C program wrote by hand (bench/c/by_hand.c), and each code.

use crate::codes;
use crate::exports::{tp_c_begin, tp_c_define, tp_c_end, tp_c_event, tp_c_point, tp_c_pull};
use crate::handle::Handle;
use crate::shapes::{Definition, EventHead, Field, Info};
use std::alloc::{AllocError, Global};

// Two events of thread 1 at the stamps 50 and 100, each with its index in 8 bytes, and a point at 150.
const TWO_EVENTS: &[u8] =
    b"Nettrace\x14\0\0\0!FastSerialization.1\x05\x05\x01\x04\0\0\0\x04\0\0\0\x05\0\0\0Trace\x06\xb2\x07\x01\0\x04\0\x01\0\0\0\0\0\0\0\0\0\0\0\0\0\0\0\0\0\0\xca\x9a\x3b\0\0\0\0\x08\0\0\0\x01\0\0\0\x01\0\0\0\0\0\0\0\x06\x05\x05\x01\x02\0\0\0\x02\0\0\0\x0d\0\0\0MetadataBlock\x06\x67\0\0\0\0\x14\0\x01\0\0\0\0\0\0\0\0\0\0\0\0\0\0\0\0\0\xc0\0\x50\x01\0\0\0M\0y\0-\0C\0-\0P\0r\0o\0g\0r\0a\0m\0\0\0\x07\0\0\0T\0i\0c\0k\0\0\0\0\0\0\0\0\0\0\0\x01\0\0\0\x04\0\0\0\x01\0\0\0\x0c\0\0\0i\0n\0d\0e\0x\0\0\0\x06\x05\x05\x01\x02\0\0\0\x02\0\0\0\x0a\0\0\0EventBlock\x06\x2e\0\0\0\0\0\x14\0\x01\0\x32\0\0\0\0\0\0\0\x64\0\0\0\0\0\0\0\x87\x01\0\x01\0\x01\x32\x08\x01\0\0\0\0\0\0\0\0\x32\x02\0\0\0\0\0\0\0\x06\x05\x05\x01\x02\0\0\0\x02\0\0\0\x07\0\0\0SPBlock\x06\x18\0\0\0\0\0\x96\0\0\0\0\0\0\0\x01\0\0\0\x01\0\0\0\0\0\0\0\x02\0\0\0\x06\x01";

// How a stream of the threads 2, 1, 2 ends: a point that names thread 1 once and thread 2 twice.
const TWO_THREADS_END: &[u8] =
    b"\x02\0\0\0\x01\0\0\0\0\0\0\0\x01\0\0\0\x02\0\0\0\0\0\0\0\x02\0\0\0\x06\x01";

const INFO: Info = Info {
    date: [1970, 1, 4, 1, 0, 0, 0, 0],
    sync: 0,
    frequency: 1_000_000_000,
    pointer_size: 8,
    process_id: 1,
    processors: 1,
    rate: 0,
};

// My-C-Program
const PROVIDER: [u16; 12] = [77, 121, 45, 67, 45, 80, 114, 111, 103, 114, 97, 109];

// Tick
const NAME: [u16; 4] = [84, 105, 99, 107];

// index
const FIELD_NAME: [u16; 5] = [105, 110, 100, 101, 120];

// A call of C. An event is of a definition's number and a thread, with an index, which gives its stamp and its payload,
// and has this many bytes of frames and of payload. A definition has an id, a type of its field and the units that are
// said to be its name's.
#[derive(Clone, Copy)]
enum Call {
    Begin,
    Define(u32, u8, u32),
    Event(u32, u64, u64, usize, usize),
    Point(u64),
    Pull(usize),
    End(usize),
}

// An event of 8 bytes.
fn event(thread: u64, index: u64) -> Call {
    Call::Event(1, thread, index, 0, 8)
}

const DEFINE: Call = Call::Define(7, 12, 5);

// What the calls answered, the last number of a definition, and what was pulled.
#[derive(Drop)]
struct Outcome {
    codes: Vec<u32>,
    number: u32,
    pulled: Vec<u8>,
}

// The most bytes of frames and of a pull here.
const FRAMES_BYTES: usize = 808;

const ROOM_BYTES: usize = 1000;

// A payload of this many bytes, whose first are the index.
fn payload_of(alloc: Global, index: u64, size: usize) -> Result<Vec<u8>, AllocError> {
    let mut payload = Vec::new(alloc);
    payload.extend_from_slice(&index.to_le_bytes())?;
    payload.resize(size, 0)?;
    Ok(payload)
}

fn write_event(
    alloc: Global,
    handle: &mut Handle,
    event: u32,
    thread: u64,
    index: u64,
    sizes: (usize, usize),
) -> Result<u32, AllocError> {
    let frames = [1; FRAMES_BYTES];
    let payload = payload_of(alloc, index, sizes.1)?;
    let head = EventHead {
        thread,
        stamp: index.wrapping_mul(50),
        activity: [0; 16],
        related: [0; 16],
        event,
    };
    let count = sizes.0.min(FRAMES_BYTES);
    Ok(tp_c_event(alloc, handle, &head, &frames[..count], &payload))
}

fn define(
    alloc: Global,
    handle: &mut Handle,
    id: u32,
    code: u8,
    units: u32,
    number: &mut u32,
) -> u32 {
    let definition = Definition {
        keywords: 0,
        id,
        version: 1,
        level: 4,
    };
    let fields = [Field {
        depth: 0,
        name_units: units,
        code,
    }];
    tp_c_define(
        alloc,
        handle,
        &definition,
        &PROVIDER,
        &NAME,
        &fields,
        &FIELD_NAME,
        number,
    )
}

// Pulls into a room, or ends the stream into it, and tells how many bytes were given.
fn give(alloc: Global, handle: &mut Handle, is_end: bool, room: &mut [u8]) -> (u32, usize) {
    let mut count = 0;
    let code = if is_end {
        tp_c_end(alloc, handle, room, &mut count)
    } else {
        tp_c_pull(alloc, handle, room, &mut count)
    };
    (code, count)
}

// Takes what a call gave of a room of this many bytes.
fn take_given(
    alloc: Global,
    handle: &mut Handle,
    room: usize,
    is_end: bool,
    pulled: &mut Vec<u8>,
) -> Result<u32, AllocError> {
    let mut out = [0; ROOM_BYTES];
    let (code, count) = give(alloc, handle, is_end, &mut out[..room.min(ROOM_BYTES)]);
    pulled.extend_from_slice(&out[..count.min(ROOM_BYTES)])?;
    Ok(code)
}

fn make(
    alloc: Global,
    handle: &mut Handle,
    call: Call,
    outcome: &mut Outcome,
) -> Result<u32, AllocError> {
    match call {
        Call::Begin => Ok(tp_c_begin(alloc, handle, &INFO)),
        Call::Define(id, code, units) => {
            Ok(define(alloc, handle, id, code, units, &mut outcome.number))
        }
        Call::Event(event, thread, index, frames, payload) => {
            write_event(alloc, handle, event, thread, index, (frames, payload))
        }
        Call::Point(stamp) => Ok(tp_c_point(alloc, handle, stamp)),
        Call::Pull(room) => take_given(alloc, handle, room, false, &mut outcome.pulled),
        Call::End(room) => take_given(alloc, handle, room, true, &mut outcome.pulled),
    }
}

fn make_all(
    alloc: Global,
    handle: &mut Handle,
    calls: &[Call],
    outcome: &mut Outcome,
) -> Result<(), AllocError> {
    for call in calls {
        let code = make(alloc, handle, *call, outcome)?;
        outcome.codes.push(code)?;
    }
    Ok(())
}

fn run(alloc: Global, calls: &[Call]) -> Result<Outcome, AllocError> {
    let mut handle = Handle::new(alloc);
    let mut outcome = Outcome {
        codes: Vec::new(alloc),
        number: 0,
        pulled: Vec::new(alloc),
    };
    make_all(alloc, &mut handle, calls, &mut outcome)?;
    Ok(outcome)
}

#[test]
fn a_stream_has_the_bytes_that_are_written_by_hand(rt: HostRuntime) -> Result<(), AllocError> {
    let calls = [
        Call::Begin,
        DEFINE,
        event(1, 1),
        event(1, 2),
        Call::Point(150),
        Call::End(1000),
    ];
    let run = run(rt.alloc(), &calls)?;
    assert_eq!(rt;
        (run.codes.as_slice(), run.number, run.pulled.as_slice()),
        ([0; 6].as_slice(), 1, TWO_EVENTS)
    );
    Ok(())
}

#[test]
fn pieces_are_pulled_in_order(rt: HostRuntime) -> Result<(), AllocError> {
    let calls = [
        Call::Begin,
        Call::Pull(60),
        DEFINE,
        event(1, 1),
        Call::Pull(7),
        event(1, 2),
        Call::Pull(1000),
        Call::Point(150),
        Call::Pull(0),
        Call::Pull(130),
        Call::End(100),
        Call::End(41),
        Call::End(41),
    ];
    let run = run(rt.alloc(), &calls)?;
    let answers = [0, 0, 0, 0, 0, 0, 0, 0, 0, 0, 13, 13, 0];
    assert_eq!(rt;
        (run.codes.as_slice(), run.pulled.as_slice()),
        (answers.as_slice(), TWO_EVENTS)
    );
    Ok(())
}

#[test]
fn the_events_of_each_thread_are_counted(rt: HostRuntime) -> Result<(), AllocError> {
    let calls = [
        Call::Begin,
        DEFINE,
        event(2, 1),
        event(1, 2),
        event(2, 3),
        Call::Point(200),
        Call::End(1000),
    ];
    let run = run(rt.alloc(), &calls)?;
    assert!(rt; run.pulled.as_slice().ends_with(TWO_THREADS_END));
    Ok(())
}

#[test]
fn what_is_refused_has_its_code_and_changes_nothing(rt: HostRuntime) -> Result<(), AllocError> {
    let calls = [
        event(1, 1),
        Call::Pull(10),
        Call::End(10),
        Call::Begin,
        Call::Begin,
        event(1, 1),
        Call::Define(7, 2, 5),
        Call::Define(7, 12, 4),
        DEFINE,
        DEFINE,
        Call::Event(2, 1, 1, 0, 8),
        Call::Event(1, 1, 1, 9, 8),
        Call::Event(1, 1, 1, 808, 8),
        Call::Event(1, 1, 1, 0, 60_001),
        event(1, 1),
        event(1, 2),
        Call::Point(150),
        Call::End(0),
        event(1, 3),
        Call::Point(160),
        Call::End(1000),
        Call::End(10),
        Call::Point(170),
    ];
    let answers = [
        codes::NOT_LIVE,
        codes::NOT_LIVE,
        codes::NOT_LIVE,
        codes::OK,
        codes::LIVE,
        codes::NO_DEFINITION,
        codes::BAD_DEFINITION,
        codes::BAD_NAMES,
        codes::OK,
        codes::OK,
        codes::NO_DEFINITION,
        codes::BAD_FRAMES,
        codes::BAD_FRAMES,
        codes::LONG_PAYLOAD,
        codes::OK,
        codes::OK,
        codes::OK,
        codes::MORE,
        codes::ENDED,
        codes::ENDED,
        codes::OK,
        codes::NOT_LIVE,
        codes::NOT_LIVE,
    ];
    let run = run(rt.alloc(), &calls)?;
    assert_eq!(rt;
        (run.codes.as_slice(), run.number, run.pulled.as_slice()),
        (answers.as_slice(), 1, TWO_EVENTS)
    );
    Ok(())
}

// The last number of a definition.
fn number_of(alloc: Global, calls: &[Call]) -> Result<u32, AllocError> {
    let run = run(alloc, calls)?;
    Ok(run.number)
}

#[test]
fn a_definition_that_differs_has_a_number_of_its_own(rt: HostRuntime) -> Result<(), AllocError> {
    for (calls, number) in [
        ([Call::Begin, DEFINE, DEFINE], 1),
        ([Call::Begin, DEFINE, Call::Define(8, 12, 5)], 2),
        ([Call::Begin, DEFINE, Call::Define(7, 11, 5)], 2),
    ] {
        assert_eq!(rt; number_of(rt.alloc(), &calls)?, number);
    }
    Ok(())
}
