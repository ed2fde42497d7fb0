//! Streams that come whole, cut, changed or not at all.
use pt_command::status::{DONE, READ_FAULT, REFUSED, WRITE_FAULT};
use pt_events::{Form, write_events};
use pt_io::{MemSink, MemSource};
use std::alloc::{AllocError, Global};
use std::test::Fail;

/// One event of the provider P, named E, and a point at which its thread's last number is 1.
pub const STREAM: [u8; 310] =
    *b"Nettrace\x14\0\0\0!FastSerialization.1\x05\x05\x01\x04\0\0\0\x04\0\0\0\x05\0\0\0Trace\x06\xb2\x07\x01\0\x04\0\x01\0\0\0\0\0\0\0\0\0\0\0\0\0\0\0\0\0\0\xca\x9a;\0\0\0\0\x08\0\0\0\x01\0\0\0\x01\0\0\0\0\0\0\0\x06\x05\x05\x01\x02\0\0\0\x02\0\0\0\x0d\0\0\0MetadataBlock\x06;\0\0\0\0\x14\0\x01\0\0\0\0\0\0\0\0\0\0\0\0\0\0\0\0\0\xc0\0$\x01\0\0\0P\0\0\0\x01\0\0\0E\0\0\0\x01\0\0\0\0\0\0\0\0\0\0\0\x04\0\0\0\0\0\0\0\x06\x05\x05\x01\x02\0\0\0\x02\0\0\0\n\0\0\0EventBlock\x06\x1b\0\0\0\0\0\x14\0\x01\0d\0\0\0\0\0\0\0d\0\0\0\0\0\0\0\x07\x01\0\x01\0\x01d\x06\x05\x05\x01\x02\0\0\0\x02\0\0\0\x07\0\0\0SPBlock\x06\x18\0\0\0\0\xc8\0\0\0\0\0\0\0\x01\0\0\0\x01\0\0\0\0\0\0\0\x01\0\0\0\x06\x01";

// The line of the event, and those of the event and the point.
const EVENT: &str = "event        100          1          1 P E\n";

const BOTH: &str = "event        100          1          1 P E\npoint        200          1\n";

/// How the command ended, and what it wrote.
#[derive(Drop)]
pub struct Run {
    pub end: (u8, u64),
    pub written: Vec<u8>,
}

/// Lists the events of these bytes, of which a read gives at most this many. The read and the write with these numbers, from 1,
/// fail, and the write takes four bytes.
pub fn run_events(
    alloc: Global,
    form: Form,
    bytes: &[u8],
    most: usize,
    fails: (u64, u64),
) -> Result<Run, AllocError> {
    let (read, write) = fails;
    let mut input = MemSource::new(bytes.to_vec(alloc)?, most.max(1), [read].to_vec(alloc)?);
    let mut output = MemSink::partial([write].to_vec(alloc)?, 4);
    let end = write_events(alloc, form, &mut input, &mut output);
    Ok(Run {
        end: (end.status(), end.at()),
        written: output.taken().to_vec(alloc)?,
    })
}

// The lines of the stream's objects that end before this offset.
fn lines_before(offset: usize) -> &'static str {
    if offset < 256 {
        ""
    } else if offset < 309 {
        EVENT
    } else {
        BOTH
    }
}

// A status and the offset that it names, and what is written: the lines of what stands before an offset, and this line.
type Want<'a> = (u8, u64, usize, &'a str);

fn is_so(alloc: Global, run: &Run, want: Want) -> Result<bool, AllocError> {
    let (status, at, offset, last) = want;
    let before = lines_before(offset);
    let text = format!(in alloc; "{before}{last}")?;
    Ok((run.end, run.written.as_slice()) == ((status, at), text.as_bytes()))
}

// Whether a run ends and writes so. The read and the write that fail stand together.
fn tells(
    alloc: Global,
    bytes: &[u8],
    most: usize,
    fails: (u64, u64),
    want: Want,
) -> Result<bool, AllocError> {
    let run = run_events(alloc, Form::Lines, bytes, most, fails)?;
    is_so(alloc, &run, want)
}

#[test]
fn a_stream_is_listed_in_one_read_and_byte_by_byte(rt: HostRuntime) -> Result<(), Fail> {
    for most in [1, 310] {
        let is_told = tells(rt.alloc(), &STREAM, most, (0, 0), (DONE, 0, 310, ""))?;
        assert!(rt; is_told, "{most} bytes in a read");
    }
    Ok(())
}

// Whether this much of the stream is told as cut there.
fn is_cut(alloc: Global, length: usize) -> Result<bool, AllocError> {
    let last = format!(in alloc; "error: offset {length}: Truncated\n")?;
    let want = (REFUSED, length as u64, length, last.as_str());
    tells(alloc, &STREAM[..length.min(310)], 310, (0, 0), want)
}

#[test]
fn a_stream_that_is_cut_has_the_lines_of_what_stands_before(rt: HostRuntime) -> Result<(), Fail> {
    for length in 0..310 {
        assert!(rt; is_cut(rt.alloc(), length)?, "cut after {length} bytes");
    }
    Ok(())
}

// Whether the stream with another byte in a place is refused at this offset by this line.
fn is_refused(
    alloc: Global,
    place: usize,
    byte: u8,
    at: usize,
    last: &str,
) -> Result<bool, AllocError> {
    let mut bytes = STREAM;
    if place < bytes.len() {
        bytes[place] = byte;
    }
    tells(alloc, &bytes, 64, (0, 0), (REFUSED, at as u64, at, last))
}

// The first byte of all, the id in the event's header, the size of the metadata block, and the tag after the event block.
#[test]
fn a_changed_byte_is_named_behind_the_lines_before_it(rt: HostRuntime) -> Result<(), Fail> {
    let cases: [(usize, u8, usize, &str); 4] = [
        (0, b'n', 0, "error: offset 0: BadMagic\n"),
        (249, 5, 248, "error: offset 248: UnknownMetadata 5\n"),
        (134, 2, 131, "error: offset 131: TooLarge 33554491\n"),
        (256, 9, 256, "error: offset 256: BadObject\n"),
    ];
    for (place, byte, at, last) in cases {
        assert!(rt; is_refused(rt.alloc(), place, byte, at, last)?, "{last}");
    }
    Ok(())
}

// A read that fails, and the offset up to which the reads before it came: of the six the fifth would give the end of the event
// block, and the last finds the end. Then a write that fails after four bytes: the event's line, and the point's after it.
#[test]
fn each_read_and_each_write_fail(rt: HostRuntime) -> Result<(), Fail> {
    let cases: [(usize, (u64, u64), u8, usize, &str); 8] = [
        (64, (1, 0), READ_FAULT, 0, ""),
        (64, (2, 0), READ_FAULT, 64, ""),
        (64, (3, 0), READ_FAULT, 128, ""),
        (64, (4, 0), READ_FAULT, 192, ""),
        (64, (5, 0), READ_FAULT, 256, ""),
        (64, (6, 0), READ_FAULT, 310, ""),
        (64, (0, 1), WRITE_FAULT, 0, "even"),
        (128, (0, 2), WRITE_FAULT, 256, "poin"),
    ];
    for (most, fails, status, offset, last) in cases {
        let is_told = tells(rt.alloc(), &STREAM, most, fails, (status, 0, offset, last))?;
        assert!(rt; is_told, "read and write {fails:?}");
    }
    Ok(())
}

// The object of the event, and that of the point.
const EVENT_OBJECT: &str =
    r#"{"kind":"event","stamp":100,"thread":1,"number":1,"processor":0,"thread_id":1,"provider":"P","name":"E","id":1,"version":0,"level":4,"keywords":1,"activity":"00000000-0000-0000-0000-000000000000","related":"00000000-0000-0000-0000-000000000000","stack":[],"fields":{}}
"#;

const POINT_OBJECT: &str = r#"{"kind":"point","stamp":200,"threads":[{"thread":1,"number":1}]}
"#;

// The objects of what ends before this offset.
fn objects_before(offset: usize) -> (&'static str, &'static str) {
    if offset < 256 {
        ("", "")
    } else if offset < 309 {
        (EVENT_OBJECT, "")
    } else {
        (EVENT_OBJECT, POINT_OBJECT)
    }
}

// Whether this much of the stream comes to its objects, and, where it is cut there, to one that says so.
fn has_objects(alloc: Global, length: usize) -> Result<bool, AllocError> {
    let run = run_events(alloc, Form::Json, &STREAM[..length.min(310)], 310, (0, 0))?;
    let (event, point) = objects_before(length);
    if length == 310 {
        let text = format!(in alloc; "{event}{point}")?;
        return Ok((run.end, run.written.as_slice()) == ((DONE, 0), text.as_bytes()));
    }
    let text = format!(in alloc;
        "{event}{point}{{\"kind\":\"error\",\"offset\":{length},\"error\":\"Truncated\"}}\n"
    )?;
    Ok((run.end, run.written.as_slice()) == ((REFUSED, length as u64), text.as_bytes()))
}

#[test]
fn a_stream_that_is_cut_has_the_objects_of_what_stands_before(rt: HostRuntime) -> Result<(), Fail> {
    for length in 0..=310 {
        assert!(rt;
            has_objects(rt.alloc(), length)?,
            "cut after {length} bytes"
        );
    }
    Ok(())
}
