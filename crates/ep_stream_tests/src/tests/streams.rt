//! Sessions over listed rows, against streams that a writer makes of the same events.
use super::scene::{Scene, event};
use ep_defs::{EventDef, Marks, standard_info};
use ep_stream::{Fate, SessionEnd};
use nt_write::{EventOut, Fault, TraceWriter};
use pt_io::MemSink;
use std::alloc::{AllocGlobal, Global};
use std::process::Abort;

// The 310 bytes of a session with one event.
const ONE_EVENT: &[u8] =
    b"Nettrace\x14\0\0\0!FastSerialization.1\x05\x05\x01\x04\0\0\0\x04\0\0\0\x05\0\0\0Trace\x06\xb2\x07\x01\0\x04\0\x01\0\0\0\0\0\0\0\0\0\0\0\0\0\0\0\0\0\0\xca\x9a\x3b\0\0\0\0\x08\0\0\0\x01\0\0\0\x01\0\0\0\0\0\0\0\x06\x05\x05\x01\x02\0\0\0\x02\0\0\0\x0d\0\0\0MetadataBlock\x06\x3b\0\0\0\0\x14\0\x01\0\0\0\0\0\0\0\0\0\0\0\0\0\0\0\0\0\xc0\0\x24\x01\0\0\0P\0\0\0\x01\0\0\0E\0\0\0\x01\0\0\0\0\0\0\0\0\0\0\0\x04\0\0\0\0\0\0\0\x06\x05\x05\x01\x02\0\0\0\x02\0\0\0\x0a\0\0\0EventBlock\x06\x1b\0\0\0\0\0\x14\0\x01\0\x64\0\0\0\0\0\0\0\x64\0\0\0\0\0\0\0\x07\x01\0\x01\0\x01\x64\x06\x05\x05\x01\x02\0\0\0\x02\0\0\0\x07\0\0\0SPBlock\x06\x18\0\0\0\0\xc8\0\0\0\0\0\0\0\x01\0\0\0\x01\0\0\0\0\0\0\0\x01\0\0\0\x06\x01";

// The 462 bytes of the same session with a rundown.
const ONE_DESCRIBED: &[u8] =
    b"Nettrace\x14\0\0\0!FastSerialization.1\x05\x05\x01\x04\0\0\0\x04\0\0\0\x05\0\0\0Trace\x06\xb2\x07\x01\0\x04\0\x01\0\0\0\0\0\0\0\0\0\0\0\0\0\0\0\0\0\0\xca\x9a\x3b\0\0\0\0\x08\0\0\0\x01\0\0\0\x01\0\0\0\0\0\0\0\x06\x05\x05\x01\x02\0\0\0\x02\0\0\0\x0d\0\0\0MetadataBlock\x06\x96\0\0\0\0\x14\0\x01\0\0\0\0\0\0\0\0\0\0\0\0\0\0\0\0\0\xc0\0\x24\x01\0\0\0P\0\0\0\x01\0\0\0E\0\0\0\x01\0\0\0\0\0\0\0\0\0\0\0\x04\0\0\0\0\0\0\0\xc0\0X\x02\0\0\0P\0i\0p\0e\0\x2d\0R\0u\0n\0d\0o\0w\0n\0\0\0\x01\0\0\0E\0v\0e\0n\0t\0D\0e\0s\0c\0r\0i\0p\0t\0i\0o\0n\0\0\0\0\0\0\0\0\0\0\0\0\0\0\0\x04\0\0\0\0\0\0\0\x06\x05\x05\x01\x02\0\0\0\x02\0\0\0\x0a\0\0\0EventBlock\x06K\0\0\0\0\0\0\x14\0\x01\0d\0\0\0\0\0\0\0\xc8\0\0\0\0\0\0\0\x07\x01\0\x01\0\x01d\x87\x02\xff\xff\xff\xff\x0f\0\0\0d\x24\x01\0\0\0P\0\0\0\x01\0\0\0E\0\0\0\x01\0\0\0\0\0\0\0\0\0\0\0\x04\0\0\0\0\0\0\0\x06\x05\x05\x01\x02\0\0\0\x02\0\0\0\x07\0\0\0SPBlock\x06\x24\0\0\0\0\xc8\0\0\0\0\0\0\0\x02\0\0\0\0\0\0\0\0\0\0\0\x01\0\0\0\x01\0\0\0\0\0\0\0\x01\0\0\0\x06\x01";

// An event of a thread, with its number and its stamp, or a point at a stamp, by which thread 1 has come to 2 and thread 2
// to 1.
#[derive(Clone, Copy)]
enum Told {
    Event(u64, u32, u64),
    Point(u64),
}

fn tell_event(
    alloc: Global,
    writer: &mut TraceWriter<MemSink>,
    def: &EventDef,
    thread: u64,
    number: u32,
    stamp: u64,
) -> Result<(), Fault> {
    if number == 0 || !def.is_valid() {
        return Err(Fault::TooLong);
    }
    let out = EventOut {
        event: 1,
        thread,
        number,
        stamp,
        activity: [0; 16],
        related: [0; 16],
        frames: &[],
        payload: &[],
    };
    writer.event(alloc, def, &out)
}

fn tell_all(
    alloc: Global,
    writer: &mut TraceWriter<MemSink>,
    def: &EventDef,
    all: &[Told],
) -> Result<(), Fault> {
    for told in all {
        match *told {
            Told::Event(thread, number, stamp) => {
                tell_event(alloc, writer, def, thread, number, stamp)?
            }
            Told::Point(stamp) => writer.point(alloc, stamp, &[(1, 2), (2, 1)])?,
        }
    }
    Ok(())
}

// The stream of these events and points.
fn stream(alloc: Global, all: &[Told]) -> Result<MemSink, Fault> {
    let def = event(alloc)?;
    let sink = MemSink::new(Vec::new(alloc));
    match TraceWriter::begin(alloc, sink, &standard_info(1, 1)) {
        Ok(mut writer) => {
            tell_all(alloc, &mut writer, &def, all)?;
            Ok(writer.end(alloc).0)
        }
        Err((_, fault)) => Err(fault),
    }
}

// A call on a session and its rows: of a row, and where it has one, at a stamp.
#[derive(Clone, Copy)]
enum Act {
    Attach(u32),
    Write(u32, u64),
    Steal(u32),
    Give,
    Sweep(u64),
    Detach(u32),
}

// Makes the call, and answers how many records it took.
fn make(rt: &(impl Abort + AllocGlobal), scene: &mut Scene, call: Act) -> Result<u64, Fault> {
    match call {
        Act::Attach(row) => scene.attach(rt, row)?,
        Act::Write(row, stamp) => scene.write(rt, row, stamp),
        Act::Steal(row) => return scene.steal(rt, row),
        Act::Give => scene.give(),
        Act::Sweep(stamp) => return scene.sweep(rt, stamp),
        Act::Detach(row) => scene.detach(rt, row)?,
    }
    Ok(0)
}

// A call, its answer, and how many of the four chunks are free then.
type Called = (Act, Result<u64, Fault>, u32);

fn make_all(rt: &(impl Abort + AllocGlobal), scene: &mut Scene, calls: &[Called]) {
    for (call, answer, free) in calls {
        assert_eq!(rt; (make(rt, scene, *call), scene.free()), (*answer, *free));
    }
}

// At which write the session's sink fails, the first being 1, how often the rows refuse to open one, and whether it was
// asked for a rundown.
type Setting = (u64, u32, bool);

// A session after these calls, which ends at the stamp.
fn ended(
    rt: &(impl Abort + AllocGlobal),
    (fails, refusals, rundown): Setting,
    calls: &[Called],
    stamp: u64,
) -> Option<SessionEnd<MemSink>> {
    match Scene::new(rt.alloc(), fails, refusals, rundown) {
        Ok(mut scene) => {
            make_all(rt, &mut scene, calls);
            Some(scene.finish(rt, stamp))
        }
        Err(_) => None,
    }
}

fn has_taken(end: Option<SessionEnd<MemSink>>, bytes: &[u8]) -> bool {
    match end {
        Some(end) => end.sink.taken() == bytes,
        None => false,
    }
}

// Whether the session's stream is that of these events and points.
fn has_told(alloc: Global, end: Option<SessionEnd<MemSink>>, all: &[Told]) -> bool {
    match stream(alloc, all) {
        Ok(sink) => has_taken(end, sink.taken()),
        Err(_) => false,
    }
}

// How the session ended, and whether these are its marks.
fn fate_with(end: Option<SessionEnd<MemSink>>, marks: &[Marks]) -> Option<(Fate, bool)> {
    match end {
        Some(end) => Some((end.fate, end.marks.as_slice() == marks)),
        None => None,
    }
}

const ONE_WRITE: &[Called] = &[
    (Act::Attach(1), Ok(0), 4),
    (Act::Write(1, 100), Ok(0), 3),
    (Act::Steal(1), Ok(1), 3),
    (Act::Give, Ok(0), 4),
    (Act::Detach(1), Ok(0), 4),
];

const SWEPT: &[Called] = &[
    (Act::Attach(1), Ok(0), 4),
    (Act::Attach(2), Ok(0), 4),
    (Act::Write(1, 100), Ok(0), 3),
    (Act::Write(2, 101), Ok(0), 2),
    (Act::Write(1, 102), Ok(0), 2),
    (Act::Sweep(200), Ok(3), 4),
    (Act::Detach(1), Ok(0), 4),
    (Act::Detach(2), Ok(0), 4),
];

// What the sweep tells.
const SWEEP: &[Told] = &[
    Told::Event(1, 1, 100),
    Told::Event(1, 2, 102),
    Told::Event(2, 1, 101),
    Told::Point(200),
    Told::Point(300),
];

const REFUSED: &[Called] = &[
    (Act::Attach(1), Err(Fault::OutOfMemory), 4),
    (Act::Sweep(50), Ok(0), 4),
    (Act::Attach(1), Ok(0), 4),
    (Act::Write(1, 100), Ok(0), 3),
    (Act::Detach(1), Ok(0), 3),
    (Act::Give, Ok(0), 4),
];

const LINK_FAILED: &[Called] = &[
    (Act::Attach(1), Ok(0), 4),
    (Act::Write(1, 100), Ok(0), 3),
    (Act::Sweep(101), Err(Fault::WriteFault), 4),
    (Act::Write(1, 102), Ok(0), 3),
    (Act::Sweep(103), Err(Fault::WriteFault), 4),
    (Act::Write(1, 104), Ok(0), 3),
    (Act::Steal(1), Err(Fault::WriteFault), 3),
    (Act::Give, Ok(0), 4),
    (Act::Detach(1), Err(Fault::WriteFault), 4),
];

// The tables, of which the tests' proofs need no row.
fn one_event() -> &'static [u8] {
    ONE_EVENT
}

fn one_described() -> &'static [u8] {
    ONE_DESCRIBED
}

fn one_write() -> &'static [Called] {
    ONE_WRITE
}

fn swept() -> &'static [Called] {
    SWEPT
}

fn sweep() -> &'static [Told] {
    SWEEP
}

fn refused() -> &'static [Called] {
    REFUSED
}

fn link_failed() -> &'static [Called] {
    LINK_FAILED
}

#[test]
fn one_write_on_one_row_takes_310_bytes(rt: HostRuntime) {
    let taken = has_taken(ended(&rt, (0, 0, false), one_write(), 200), one_event());
    assert_eq!(rt; (one_event().len(), taken), (310, true));
}

#[test]
fn one_write_and_its_description_take_462_bytes(rt: HostRuntime) {
    let taken = has_taken(ended(&rt, (0, 0, true), one_write(), 200), one_described());
    assert_eq!(rt; (one_described().len(), taken), (462, true));
}

#[test]
fn a_sweep_writes_the_rows_one_after_another_and_a_point(rt: HostRuntime) {
    assert!(rt; has_told(rt.alloc(), ended(&rt, (0, 0, false), swept(), 300), sweep()));
}

#[test]
fn a_row_that_refuses_memory_can_be_opened_later(rt: HostRuntime) {
    assert!(rt; has_taken(ended(&rt, (0, 1, false), refused(), 200), one_event()));
}

#[test]
fn a_session_whose_link_failed_gives_back_and_keeps_its_marks(rt: HostRuntime) {
    let marks = Marks {
        thread: 1,
        from: 0,
        to: 3,
        taken: 3,
        refused: 0,
    };
    let fate = fate_with(ended(&rt, (3, 0, false), link_failed(), 200), &[marks]);
    assert_eq!(rt; fate, Some((Fate::LinkFault, true)));
}
