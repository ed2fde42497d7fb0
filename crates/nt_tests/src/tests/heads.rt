//! Compressed headers, both ways.

use crate::tests::same;
use nt_head::{HeadState, TakenHead, put_head, take_head};
use std::alloc::{AllocError, Global};

// An event of this thread, with this sequence number and timestamp.
fn event(thread: u64, number: u32, stamp: u64) -> HeadState {
    HeadState {
        metadata: 1,
        number,
        capture: thread,
        processor: 0,
        thread,
        stack: 0,
        stamp,
        activity: [0; 16],
        related: [0; 16],
        sorted: false,
        size: 0,
    }
}

// Whether a header is put as these bytes behind the previous one, their number by what the call said, and what is taken of it.
fn both_ways(
    alloc: Global,
    previous: &HeadState,
    now: &HeadState,
    bytes: &[u8],
) -> Result<(bool, usize, TakenHead), AllocError> {
    let mut out = Vec::new(alloc);
    if now.metadata == 0 {
        return Err(AllocError);
    }
    let used = put_head(&mut out, previous, now)?;
    let taken = take_head(out.as_slice(), previous);
    Ok((out.as_slice() == bytes, used, taken))
}

// A header that is put as these bytes, and taken of them.
fn read_back(state: HeadState, bytes: &[u8]) -> (bool, usize, TakenHead) {
    let used = bytes.len();
    (true, used, TakenHead::Head { state, used })
}

// A header behind another, and its bytes. The fourth is that of the first event of another thread in a block.
fn headers() -> [(HeadState, HeadState, &'static [u8]); 5] {
    let mut named = event(1, 1, 5);
    named.activity = [5; 16];
    [
        (HeadState::zero(), event(1, 1, 10), &[7, 1, 0, 1, 0, 1, 10]),
        (event(1, 1, 10), event(1, 2, 11), &[0, 1]),
        (event(1, 1, 10), event(1, 3, 12), &[2, 1, 1, 0, 2]),
        (
            event(1, 5, 50),
            event(2, 1, 56),
            &[0x06, 0xfb, 0xff, 0xff, 0xff, 0x0f, 0x02, 0x00, 0x02, 0x06],
        ),
        (
            event(1, 1, 5),
            named,
            &[
                18, 0xff, 0xff, 0xff, 0xff, 0x0f, 1, 0, 0, 5, 5, 5, 5, 5, 5, 5, 5, 5, 5, 5, 5, 5,
                5, 5, 5,
            ],
        ),
    ]
}

#[test]
fn headers_are_put_and_taken(rt: HostRuntime) {
    for (previous, now, bytes) in headers() {
        let told = both_ways(rt.alloc(), &previous, &now, bytes);
        same(&rt, told, Ok(read_back(now, bytes)));
    }
}

// A header that differs from zero in each field.
fn full() -> HeadState {
    let mut all = event(2, 7, 9);
    all.processor = 3;
    all.stack = 300;
    all.activity = [5; 16];
    all.related = [6; 16];
    all.sorted = true;
    all.size = 60_000;
    all
}

// Whether what is taken of a header as it was put is the header, and its bytes by what that call said.
fn is_taken(alloc: Global, now: &HeadState) -> Result<bool, AllocError> {
    let (_, used, taken) = both_ways(alloc, &HeadState::zero(), now, &[])?;
    Ok(taken == TakenHead::Head { state: *now, used })
}

#[test]
fn a_header_with_all_fields_is_taken_as_it_was_put(rt: HostRuntime) {
    same(&rt, is_taken(rt.alloc(), &full()), Ok(true));
}

// Bytes that are cut or too wide, and what is taken of them.
const REFUSED: &[(&[u8], TakenHead)] = &[
    (&[], TakenHead::Short),
    (&[16, 1, 0], TakenHead::Short),
    (
        &[1, 0x80, 0x80, 0x80, 0x80, 0x10],
        TakenHead::BadVar { at: 1 },
    ),
    (&[1, 0x80, 0x80, 0x80, 0x80], TakenHead::Short),
];

#[test]
fn headers_are_refused_where_they_are_cut_or_too_wide(rt: HostRuntime) {
    for row in REFUSED {
        same(&rt, take_head(row.0, &HeadState::zero()), row.1);
    }
}
