//! One message of a link, and no byte after it.

use ipc_take::{Lack, receive};
use pt_io::{MemLink, MemSink, MemSource, Source};
use std::alloc::{AllocError, Global};

// A request of 57 bytes for one session, from the worked examples.
const COLLECT: [u8; 57] =
    *b"DOTNET_IPC_V1\0\x39\0\x02\x03\0\0\x01\0\0\0\x01\0\0\0\0\x01\0\0\0\x01\0\0\0\0\0\0\0\x04\0\0\0\x02\0\0\0P\0\0\0\0\0\0\0";

// What a call answered, None where it was refused, and what the link gives after it; of a link that gives these bytes, this many
// at most in a read, and fails at this read.
fn first_message(
    alloc: Global,
    bytes: &[u8],
    most: usize,
    fails: u64,
) -> Result<(Option<Vec<u8>>, Vec<u8>), AllocError> {
    let fails = Vec::from_array(alloc, [fails])?;
    let source = MemSource::new(bytes.to_vec(alloc)?, most.max(1), fails);
    let mut link = MemLink::new(source, MemSink::new(Vec::new(alloc)));
    let message = match receive(alloc, &mut link) {
        Ok(message) => Some(message),
        Err(Lack::LinkFault) => None,
        Err(_) => return Err(AllocError),
    };
    Ok((message, rest_of(alloc, &mut link)?))
}

// What the next read gives, at most 8 bytes.
fn rest_of(alloc: Global, link: &mut MemLink) -> Result<Vec<u8>, AllocError> {
    let mut later = [0; 8];
    let read = link.read(&mut later).unwrap_or(0).min(8);
    later[..read].to_vec(alloc)
}

// Whether these bytes are the message, and those left.
fn is_first(
    alloc: Global,
    bytes: &[u8],
    most: usize,
    message: &[u8],
    later: &[u8],
) -> Result<bool, AllocError> {
    let (first, rest) = first_message(alloc, bytes, most, 0)?;
    Ok(first.is_some_and(|first| first.as_slice() == message) && rest.as_slice() == later)
}

#[test]
fn a_message_is_read_and_no_byte_after_it(rt: HostRuntime) -> Result<(), AllocError> {
    let mut bytes = COLLECT.to_vec(rt.alloc())?;
    bytes.extend_from_slice(b"more")?;
    let cases: [(usize, &[u8]); 2] = [(65_536, b"more"), (1, b"m")];
    for (most, later) in cases {
        assert!(rt; is_first(rt.alloc(), &bytes, most, &COLLECT, later)?);
    }
    Ok(())
}

#[test]
fn of_a_message_that_is_cut_all_is_read(rt: HostRuntime) -> Result<(), AllocError> {
    for there in 0..57usize {
        let cut = &COLLECT[..there];
        assert!(rt; is_first(rt.alloc(), cut, 10, cut, b"")?);
    }
    Ok(())
}

#[test]
fn what_is_no_message_ends_with_its_header(rt: HostRuntime) -> Result<(), AllocError> {
    for (place, byte) in [(0usize, b'd'), (14, 19)] {
        let mut other = COLLECT;
        if place < 57 {
            other[place] = byte;
        }
        assert!(rt; is_first(rt.alloc(), &other, 7, &other[..20], &other[20..27])?);
    }
    Ok(())
}

// The sizes of a message that says 65,535 bytes, and of what is left of 65,537.
fn longest(alloc: Global) -> Result<(usize, usize), AllocError> {
    let mut bytes = COLLECT[..14].to_vec(alloc)?;
    bytes.extend_from_slice(&[255, 255])?;
    bytes.extend_from_slice(&COLLECT[16..20])?;
    bytes.resize(65_537, 7)?;
    let (first, rest) = first_message(alloc, &bytes, 65_536, 0)?;
    Ok((first.map_or(0, |first| first.len()), rest.len()))
}

#[test]
fn a_message_of_65535_bytes_is_read(rt: HostRuntime) -> Result<(), AllocError> {
    assert_eq!(rt; longest(rt.alloc())?, (65_535, 2));
    Ok(())
}

#[test]
fn each_read_fails_in_turn(rt: HostRuntime) -> Result<(), AllocError> {
    for number in 1..=7 {
        let (first, _) = first_message(rt.alloc(), &COLLECT, 10, number)?;
        assert_eq!(rt;
            first.map_or(0, |first| first.len()),
            if number < 7 { 0 } else { 57 }
        );
    }
    Ok(())
}
