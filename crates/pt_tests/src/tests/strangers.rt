//! Bytes of strangers, and outputs that fail, at the commands that wait for nobody.
use super::plainly::{Call, call_of, run};
use pt_command::status;
use std::alloc::{AllocError, Global};
use std::test::Fail;

/// One event of the provider P, named E, and a point at which its thread's last number is 1. Its objects end at 102, 196, 256
/// and 309, where the end tag stands.
const STREAM: &[u8; 310] =
    b"Nettrace\x14\0\0\0!FastSerialization.1\x05\x05\x01\x04\0\0\0\x04\0\0\0\x05\0\0\0Trace\x06\xb2\x07\x01\0\x04\0\x01\0\0\0\0\0\0\0\0\0\0\0\0\0\0\0\0\0\0\xca\x9a;\0\0\0\0\x08\0\0\0\x01\0\0\0\x01\0\0\0\0\0\0\0\x06\x05\x05\x01\x02\0\0\0\x02\0\0\0\x0d\0\0\0MetadataBlock\x06;\0\0\0\0\x14\0\x01\0\0\0\0\0\0\0\0\0\0\0\0\0\0\0\0\0\xc0\0$\x01\0\0\0P\0\0\0\x01\0\0\0E\0\0\0\x01\0\0\0\0\0\0\0\0\0\0\0\x04\0\0\0\0\0\0\0\x06\x05\x05\x01\x02\0\0\0\x02\0\0\0\n\0\0\0EventBlock\x06\x1b\0\0\0\0\0\x14\0\x01\0d\0\0\0\0\0\0\0d\0\0\0\0\0\0\0\x07\x01\0\x01\0\x01d\x06\x05\x05\x01\x02\0\0\0\x02\0\0\0\x07\0\0\0SPBlock\x06\x18\0\0\0\0\xc8\0\0\0\0\0\0\0\x01\0\0\0\x01\0\0\0\0\0\0\0\x01\0\0\0\x06\x01";

/// The schedule of this stream.
const SCHEDULE: &[u8; 126] =
    b"event 1 P 1 0 4 1 E -\naccept 1 16 P:1:4\nopen 1 1\nbegin 1 100 1 - - - -\nshow 1 1\nend 1\nsteal 1 1\ngive 1\nclose 1 1\nfinish 1 200\n";

/// Its report.
const REPORT: &[u8] = b"trace          8          1          1
items          1          1          0          1
provider          1 P
event          1          1          0 P E
thread          1          1          1          0
";

/// A place of the stream, or the one behind it, the byte that stands there instead, and what `report` writes, which is its
/// report or an error.
const CHANGES: [(usize, u8, &[u8]); 23] = [
    // The stream as it is, and with a byte of padding, which says nothing.
    (0, b'N', REPORT),
    (135, 255, REPORT),
    // The first byte of all.
    (0, b'n', b"error: offset 0: BadMagic\n"),
    // The tags that begin an object and its type.
    (32, 6, b"error: offset 32: BadObject\n"),
    (32, 1, b"error: offset 32: BadObject\n"),
    (33, 4, b"error: offset 33: BadObject\n"),
    // The length of a type's name, and versions.
    (43, 6, b"error: offset 33: BadObject\n"),
    (35, 5, b"error: offset 35: BadVersion\n"),
    (39, 5, b"error: offset 39: BadVersion\n"),
    // The name, and the tag behind the Trace object.
    (47, 88, b"error: offset 47: BadObject\n"),
    (101, 0, b"error: offset 101: BadObject\n"),
    // The size of a metadata block, its header's size and flags.
    (134, 1, b"error: offset 131: TooLarge 16777275\n"),
    (136, 19, b"error: offset 136: BadBlock\n"),
    (138, 0, b"error: offset 138: Uncompressed\n"),
    // An id of 0, and a definition with a byte too many.
    (159, 0, b"error: offset 159: BadMeta\n"),
    (191, 1, b"error: offset 159: BadMeta\n"),
    // A header that is cut, one whose payload passes the block, and an event whose definition there is none of.
    (248, 6, b"error: offset 248: BadHead\n"),
    (254, 228, b"error: offset 248: BadHead\n"),
    (249, 5, b"error: offset 248: UnknownMetadata 5\n"),
    // The count of a point's threads, and the end of its object.
    (292, 2, b"error: offset 284: BadBlock\n"),
    (308, 5, b"error: offset 308: BadObject\n"),
    // The tag behind all objects, and a byte behind that.
    (309, 2, b"error: offset 309: BadObject\n"),
    (310, 7, b"error: offset 310: BadObject\n"),
];

// The stream with this byte in this place, or behind it.
fn changed(alloc: Global, place: usize, byte: u8) -> Result<Vec<u8>, AllocError> {
    let mut bytes = STREAM.to_vec(alloc)?;
    match bytes.get_mut(place) {
        Some(there) => *there = byte,
        None => bytes.push(byte)?,
    }
    Ok(bytes)
}

// What `report` answers to it, which it gets in reads of at most so many bytes.
fn report(alloc: Global, place: usize, byte: u8, most: usize) -> Result<(u8, Vec<u8>), AllocError> {
    let bytes = changed(alloc, place, byte)?;
    let call = Call {
        most,
        ..call_of(&["report"], &bytes)
    };
    run(alloc, &call)
}

fn status_by(text: &[u8]) -> u8 {
    if text.starts_with(b"error") {
        status::REFUSED
    } else {
        status::DONE
    }
}

#[test]
fn a_trace_that_is_wrong_is_refused_by_its_first_wrong_place(rt: HostRuntime) -> Result<(), Fail> {
    for (place, byte, want) in CHANGES {
        for most in [4_096, 1] {
            let (status, text) = report(rt.alloc(), place, byte, most)?;
            assert_eq!(rt; (status, text.as_slice()), (status_by(want), want));
        }
    }
    Ok(())
}

/// Words, an input, their status, and what they write, in one write.
const COMMANDS: [(&[&str], &[u8], u8, &[u8]); 5] = [
    (&["replay"], SCHEDULE, status::DONE, STREAM),
    (&["report"], STREAM, status::DONE, REPORT),
    (
        &["gen", "0", "16"],
        b"",
        status::DONE,
        b"gen          0         16\nsession          1         16         16          0\nsession          2          3          1          2\n",
    ),
    (
        &["replay"],
        b"opne",
        status::REFUSED,
        b"error: line 1 column 1: Word\n",
    ),
    (&["x"], b"", status::WORDS, b"error: words\n"),
];

// What the words write where the output's first write fails, or a second one, which there is not.
fn failed(
    alloc: Global,
    words: &[&str],
    bytes: &[u8],
    failing: u64,
    keep: usize,
) -> Result<(u8, Vec<u8>), AllocError> {
    let call = Call {
        failing,
        keep,
        ..call_of(words, bytes)
    };
    run(alloc, &call)
}

// Whether this is the part that a write of the whole takes which fails: never all of it.
fn is_part(text: &[u8], whole: &[u8], keep: usize) -> bool {
    let most = whole.len().saturating_sub(1);
    whole.get(..keep.min(most)) == Some(text)
}

#[test]
fn a_write_that_fails_is_a_write_fault(rt: HostRuntime) -> Result<(), Fail> {
    for (words, bytes, _status, whole) in COMMANDS {
        for keep in [0, 5, 400] {
            let (status, text) = failed(rt.alloc(), words, bytes, 1, keep)?;
            assert_eq!(rt;
                (status, is_part(&text, whole, keep)),
                (status::WRITE_FAULT, true)
            );
        }
    }
    Ok(())
}

#[test]
fn a_command_writes_once(rt: HostRuntime) -> Result<(), Fail> {
    for (words, bytes, wanted, whole) in COMMANDS {
        let (status, text) = failed(rt.alloc(), words, bytes, 2, 0)?;
        assert_eq!(rt; (status, text.as_slice()), (wanted, whole));
    }
    Ok(())
}
