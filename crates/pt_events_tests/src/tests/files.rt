//! Files of trace events: of streams that come whole, cut or with a fault.
use super::streams::{STREAM, run_events};
use json::{Scratch, is_valid};
use pt_command::status::{DONE, READ_FAULT, REFUSED, WRITE_FAULT};
use pt_events::Form;
use std::alloc::{AllocError, Global};
use std::test::Fail;

// What stands before the objects, that of the event, that of the point, and what stands behind them.
const HEAD: &str = r#"{"displayTimeUnit":"ns","traceEvents":["#;

const EVENT: &str = r#"
{"name":"E","cat":"P","ph":"i","s":"t","ts":0.100,"pid":1,"tid":1,"args":{"number":1,"fields":{}}}"#;

const POINT: &str = r#",
{"name":"point","ph":"i","s":"p","ts":0.200,"pid":1,"args":{"threads":1}}"#;

const TAIL: &str = "\n]}\n";

// The objects of what ends before this offset.
fn objects_before(offset: usize) -> (&'static str, &'static str) {
    if offset < 256 {
        ("", "")
    } else if offset < 309 {
        (EVENT, "")
    } else {
        (EVENT, POINT)
    }
}

// The file of this much of the stream.
fn file_of(alloc: Global, length: usize) -> Result<String, AllocError> {
    let (event, point) = objects_before(length);
    if length == 310 {
        return format!(in alloc; "{HEAD}{event}{point}{TAIL}");
    }
    format!(in alloc;
        "{HEAD}{event}{point}\n],\"error\":{{\"kind\":\"error\",\"offset\":{length},\"error\":\"Truncated\"}}\n}}\n"
    )
}

// Whether the bytes are one value, as the kit's reader of JSON sees it.
fn is_value(alloc: Global, bytes: &[u8]) -> Result<bool, AllocError> {
    let mut scratch = Scratch::new(alloc);
    match str::from_utf8(bytes) {
        Ok(text) => is_valid(text, &mut scratch),
        Err(_) => Ok(false),
    }
}

// Whether this much of the stream, read in pieces of at most so many bytes, comes to its file, which is JSON.
fn has_file(alloc: Global, length: usize, most: usize) -> Result<bool, AllocError> {
    let bytes = &STREAM[..length.min(310)];
    let run = run_events(alloc, Form::Chromium, bytes, most, (0, 0))?;
    let text = file_of(alloc, length)?;
    let end = if length == 310 {
        (DONE, 0)
    } else {
        (REFUSED, length as u64)
    };
    let is_json = is_value(alloc, run.written.as_slice())?;
    Ok(is_json && (run.end, run.written.as_slice()) == (end, text.as_bytes()))
}

#[test]
fn a_stream_that_is_cut_is_a_file_that_says_so(rt: HostRuntime) -> Result<(), Fail> {
    for length in 0..=310 {
        assert!(rt;
            has_file(rt.alloc(), length, 310)?,
            "cut after {length} bytes"
        );
    }
    Ok(())
}

#[test]
fn a_file_is_the_same_in_any_pieces(rt: HostRuntime) -> Result<(), Fail> {
    for most in [1, 7, 256] {
        assert!(rt; has_file(rt.alloc(), 310, most)?, "{most} bytes in a read");
    }
    Ok(())
}

// Whether a run with this fault ends so and writes this.
fn fails_so(
    alloc: Global,
    fails: (u64, u64),
    status: u8,
    want: [&str; 4],
) -> Result<bool, AllocError> {
    let run = run_events(alloc, Form::Chromium, &STREAM, 256, fails)?;
    let [head, event, point, part] = want;
    let text = format!(in alloc; "{head}{event}{point}{part}")?;
    Ok((run.end, run.written.as_slice()) == ((status, 0), text.as_bytes()))
}

// The first and the second read; then the writes of what stands before the objects, of each object, and of what stands behind
// them, each of which takes four bytes, or all but the last.
#[test]
fn each_fault_leaves_a_first_part(rt: HostRuntime) -> Result<(), Fail> {
    let cases: [((u64, u64), u8, [&str; 4]); 6] = [
        ((1, 0), READ_FAULT, [HEAD, "", "", ""]),
        ((2, 0), READ_FAULT, [HEAD, EVENT, "", ""]),
        ((0, 1), WRITE_FAULT, ["", "", "", "{\"di"]),
        ((0, 2), WRITE_FAULT, [HEAD, "", "", "\n{\"n"]),
        ((0, 3), WRITE_FAULT, [HEAD, EVENT, "", ",\n{\""]),
        ((0, 4), WRITE_FAULT, [HEAD, EVENT, POINT, "\n]}"]),
    ];
    for (fails, status, want) in cases {
        assert!(rt; fails_so(rt.alloc(), fails, status, want)?, "{fails:?}");
    }
    Ok(())
}
