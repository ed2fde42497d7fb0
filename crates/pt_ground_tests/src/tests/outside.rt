//! The outside in memory: sources, sinks, links, docks, callers and clocks, and the calls at which they fail.
ghost use Rattle.std.specs.Prelude.{IfOk, All};
ghost use Rattle.pt_io.specs.Memory.{IsUnused};

use crate::tests::same;
use pt_io::{
    Arrival, Caller, Clock, Dock, Failed, Gate, Link, MemCaller, MemDock, MemLink, MemSink,
    MemSource, Moment, OpenGate, Sink, Source, StepClock,
};
use std::alloc::{AllocError, Global};
use std::collections::VecDeque;

// What a read answers, and the buffer of four bytes after it.
fn piece(source: &mut MemSource) -> (Result<usize, Failed>, [u8; 4]) {
    let mut buf = [0; 4];
    let count = source.read(&mut buf);
    (count, buf)
}

// Four reads of a source that gives two of its five bytes at most.
fn pieces(alloc: Global) -> Result<[(Result<usize, Failed>, [u8; 4]); 4], AllocError> {
    let bytes = [1, 2, 3, 4, 5].to_vec(alloc)?;
    let mut source = MemSource::new(bytes, 2, Vec::new(alloc));
    Ok([
        piece(&mut source),
        piece(&mut source),
        piece(&mut source),
        piece(&mut source),
    ])
}

#[test]
fn a_source_gives_its_bytes_in_pieces_of_most(rt: HostRuntime) {
    let wanted = [
        (Ok(2), [1, 2, 0, 0]),
        (Ok(2), [3, 4, 0, 0]),
        (Ok(1), [5, 0, 0, 0]),
        (Ok(0), [0, 0, 0, 0]),
    ];
    same(&rt, pieces(rt.alloc()), Ok(wanted));
}

// What three reads into one buffer of two bytes answer, and what it holds after each.
fn read_over(source: &mut MemSource) -> [(Result<usize, Failed>, [u8; 2]); 3] {
    let mut buf = [0; 2];
    let first = (source.read(&mut buf), buf);
    let second = (source.read(&mut buf), buf);
    [first, second, (source.read(&mut buf), buf)]
}

// Three reads of three bytes, in pieces that the buffer bounds.
fn bounded(alloc: Global) -> Result<[(Result<usize, Failed>, [u8; 2]); 3], AllocError> {
    let bytes = [7, 8, 9].to_vec(alloc)?;
    Ok(read_over(&mut MemSource::new(bytes, 3, Vec::new(alloc))))
}

// Three reads of three bytes, the second of which fails.
fn failing(alloc: Global) -> Result<[(Result<usize, Failed>, [u8; 2]); 3], AllocError> {
    let fails = [2].to_vec(alloc)?;
    let bytes = [1, 2, 3].to_vec(alloc)?;
    Ok(read_over(&mut MemSource::new(bytes, 2, fails)))
}

#[test]
fn a_buffer_bounds_a_piece_and_a_read_behind_a_failing_one_goes_on(rt: HostRuntime) {
    let told = [bounded(rt.alloc()), failing(rt.alloc())];
    let bounded = [(Ok(2), [7, 8]), (Ok(1), [9, 8]), (Ok(0), [9, 8])];
    let failing = [(Ok(2), [1, 2]), (Err(Failed), [1, 2]), (Ok(1), [3, 2])];
    same(&rt, told, [Ok(bounded), Ok(failing)]);
}

// What four writes answer, and whether these bytes are taken then.
fn writes(sink: &mut MemSink, pieces: [&[u8]; 4], taken: &[u8]) -> ([Result<(), Failed>; 4], bool) {
    let [first, second, third, last] = pieces;
    let told = [
        sink.write(first),
        sink.write(second),
        sink.write(third),
        sink.write(last),
    ];
    (told, sink.taken() == taken)
}

// Writes that all are taken, and how many bytes were taken before them.
fn taken(alloc: Global) -> (usize, ([Result<(), Failed>; 4], bool)) {
    let mut sink = MemSink::new(Vec::new(alloc));
    let before = sink.taken().len();
    (
        before,
        writes(&mut sink, [&[1, 2], &[], &[3], &[]], &[1, 2, 3]),
    )
}

// Writes the first and the third of which fail, and take nothing.
fn refused(alloc: Global) -> Result<([Result<(), Failed>; 4], bool), AllocError> {
    let mut sink = MemSink::new([1, 3].to_vec(alloc)?);
    Ok(writes(&mut sink, [&[1, 2], &[3], &[4], &[]], &[3]))
}

// Writes the first three of which fail, and take two bytes or all but the last where that is fewer.
fn partial(alloc: Global) -> Result<([Result<(), Failed>; 4], bool), AllocError> {
    let mut sink = MemSink::partial([1, 2, 3].to_vec(alloc)?, 2);
    let pieces: [&[u8]; 4] = [&[1, 2, 3], &[4, 5], &[], &[6]];
    Ok(writes(&mut sink, pieces, &[1, 2, 4, 6]))
}

#[test]
fn a_sink_takes_all_pieces_but_those_of_failing_writes(rt: HostRuntime) {
    let alloc = rt.alloc();
    let failed = Err(Failed);
    let told = (taken(alloc), [refused(alloc), partial(alloc)]);
    let wanted = [
        Ok(([failed, Ok(()), failed, Ok(())], true)),
        Ok(([failed, failed, failed, Ok(())], true)),
    ];
    same(&rt, told, ((0, ([Ok(()); 4], true)), wanted));
}

// A link that gives these bytes and takes all.
fn link_of(alloc: Global, bytes: Vec<u8>) -> MemLink
    ensures { IsUnused result }
{
    MemLink::new(
        MemSource::new(bytes, 4, Vec::new(alloc)),
        MemSink::new(Vec::new(alloc)),
    )
}

// What two reads of a link of three bytes answer, a write before the first and its end before the last of them, what
// the buffer holds in between, and whether the link has taken what was written.
fn talk(alloc: Global) -> Result<([Result<usize, Failed>; 2], [u8; 4], [bool; 2]), AllocError> {
    let mut link = link_of(alloc, [1, 2, 3].to_vec(alloc)?);
    let mut buf = [0; 4];
    let has_written = link.write(&[9]) == Ok(());
    let first = link.read(&mut buf);
    let held = buf;
    link.shut();
    let last = link.read(&mut buf);
    let has_taken = link.taken() == [9].as_slice();
    Ok(([first, last], held, [has_written, has_taken]))
}

#[test]
fn a_link_gives_and_takes(rt: HostRuntime) {
    let wanted = ([Ok(3), Ok(0)], [1, 2, 3, 0], [true; 2]);
    same(&rt, talk(rt.alloc()), Ok(wanted));
}

// One link, which gives a byte.
fn one_link(alloc: Global) -> Result<VecDeque<MemLink>, AllocError>
    ensures { IfOk result (λ links. All IsUnused links.items) }
{
    let mut links = VecDeque::new(alloc);
    links.push_back(link_of(alloc, [5].to_vec(alloc)?))?;
    Ok(links)
}

// What a turn of a dock is.
#[derive(Clone, Copy, PartialEq, Eq)]
enum Turn {
    Link(Result<usize, Failed>, [u8; 1]),
    Quiet,
    Closed,
    Failed,
}

// A turn of a dock, and what a link that comes gives.
fn next_turn(dock: &mut MemDock) -> Turn {
    match dock.next() {
        Ok(Arrival::Link(link)) => first_byte(link),
        Ok(Arrival::Quiet) => Turn::Quiet,
        Ok(Arrival::Closed) => Turn::Closed,
        Err(Failed) => Turn::Failed,
    }
}

fn first_byte(mut link: MemLink) -> Turn {
    let mut buf = [0; 1];
    let count = link.read(&mut buf);
    Turn::Link(count, buf)
}

// The turns of a dock with one quiet turn and one link, whose second call fails.
fn turns(alloc: Global) -> Result<[Turn; 5], AllocError> {
    let fails = [2].to_vec(alloc)?;
    let mut dock = MemDock::new(one_link(alloc)?, 1, fails);
    Ok([
        next_turn(&mut dock),
        next_turn(&mut dock),
        next_turn(&mut dock),
        next_turn(&mut dock),
        next_turn(&mut dock),
    ])
}

#[test]
fn a_dock_is_quiet_then_gives_its_links_then_is_closed(rt: HostRuntime) {
    let wanted = [
        Turn::Quiet,
        Turn::Failed,
        Turn::Link(Ok(1), [5]),
        Turn::Closed,
        Turn::Closed,
    ];
    assert!(rt; turns(rt.alloc()) == Ok(wanted));
}

fn is_called(caller: &mut MemCaller) -> bool {
    caller.call("/x").is_ok()
}

// Whether each of three calls gives a link, where there is one and the first call fails.
fn calls(alloc: Global) -> Result<[bool; 3], AllocError> {
    let fails = [1].to_vec(alloc)?;
    let mut caller = MemCaller::new(one_link(alloc)?, fails);
    Ok([
        is_called(&mut caller),
        is_called(&mut caller),
        is_called(&mut caller),
    ])
}

#[test]
fn a_caller_fails_where_it_is_told_and_where_no_link_is_left(rt: HostRuntime) {
    same(&rt, calls(rt.alloc()), Ok([false, true, false]));
}

#[test]
fn a_clock_stands_still_and_a_gate_is_open(rt: HostRuntime) {
    let clock = StepClock::new(7);
    same(&rt, [clock.now(), clock.now()], [7, 7]);
    OpenGate.pass(Moment::Answered { conn: 1 });
}
