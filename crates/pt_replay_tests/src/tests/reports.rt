//! Reports of streams that come whole, cut, changed or not at all.
use crate::tests::runs::{Calls, GOOD, Outcome, compare, reported};
use crate::tests::streams::{ONE_EVENT, stream_of};
use pt_command::status;
use std::alloc::{AllocError, Global};
use std::test::Fail;

// The report of the stream of one event with another byte in a place.
fn report_of_changed(
    alloc: Global,
    place: usize,
    byte: u8,
    calls: Calls,
) -> Result<Outcome, AllocError> {
    let mut stream = stream_of(alloc, ONE_EVENT)?;
    if let Some(old) = stream.get_mut(place) {
        *old = byte;
    }
    reported(alloc, &stream, calls)
}

/// The report of the stream of one event.
const REPORT: &[u8] =
    b"trace          8          1          1\nitems          1          1          0          1\nprovider          1 P\nevent          1          1          0 P E\nthread          1          1          1          0\n";

/// A place and its byte, the bytes of a read at most, the read and the write that fail, and what the report comes to.
const STREAMS: [(usize, u8, (usize, u64, u64), (u8, u64, &[u8])); 12] = [
    // The stream as it is, in one read and byte by byte.
    (0, b'N', (310, 0, 0), (status::DONE, 0, REPORT)),
    (0, b'N', (1, 0, 0), (status::DONE, 0, REPORT)),
    // The first byte of all, the id in the event's header, and the size of the metadata block.
    (
        0,
        b'n',
        (64, 0, 0),
        (status::REFUSED, 0, b"error: offset 0: BadMagic\n"),
    ),
    (
        249,
        5,
        (64, 0, 0),
        (
            status::REFUSED,
            248,
            b"error: offset 248: UnknownMetadata 5\n",
        ),
    ),
    (
        134,
        2,
        (64, 0, 0),
        (
            status::REFUSED,
            131,
            b"error: offset 131: TooLarge 33554491\n",
        ),
    ),
    // Of the six reads the last finds the end. Nothing is written before it.
    (0, b'N', (64, 1, 0), (status::READ_FAULT, 0, b"")),
    (0, b'N', (64, 2, 0), (status::READ_FAULT, 0, b"")),
    (0, b'N', (64, 3, 0), (status::READ_FAULT, 0, b"")),
    (0, b'N', (64, 4, 0), (status::READ_FAULT, 0, b"")),
    (0, b'N', (64, 5, 0), (status::READ_FAULT, 0, b"")),
    (0, b'N', (64, 6, 0), (status::READ_FAULT, 0, b"")),
    (0, b'N', (64, 7, 1), (status::WRITE_FAULT, 0, b"trac")),
];

fn wrong_reports(alloc: Global) -> Result<String, AllocError> {
    let mut wrong = String::new(alloc);
    for (row, (place, byte, (most, read, write), want)) in STREAMS.iter().enumerate() {
        let calls = Calls {
            most: *most,
            read: *read,
            write: *write,
            kept: 4,
        };
        let found = report_of_changed(alloc, *place, *byte, calls)?;
        compare(alloc, &mut wrong, row, &found, *want)?;
    }
    Ok(wrong)
}

#[test]
fn a_stream_comes_to_its_report_or_its_first_fault(rt: HostRuntime) -> Result<(), Fail> {
    assert_eq!(rt; wrong_reports(rt.alloc())?.as_str(), "");
    Ok(())
}

// The report of the first bytes of the stream of one event.
fn report_of_cut(alloc: Global, length: usize) -> Result<Outcome, AllocError> {
    let mut stream = stream_of(alloc, ONE_EVENT)?;
    stream.truncate(length);
    reported(alloc, &stream, GOOD)
}

fn wrong_cuts(alloc: Global) -> Result<String, AllocError> {
    let mut wrong = String::new(alloc);
    for length in 0..310 {
        let found = report_of_cut(alloc, length)?;
        let want = format!(in alloc; "error: offset {length}: Truncated\n")?;
        let want = (status::REFUSED, length as u64, want.as_bytes());
        compare(alloc, &mut wrong, length, &found, want)?;
    }
    Ok(wrong)
}

#[test]
fn a_stream_that_is_cut_ends_too_early(rt: HostRuntime) -> Result<(), Fail> {
    assert_eq!(rt; wrong_cuts(rt.alloc())?.as_str(), "");
    Ok(())
}
