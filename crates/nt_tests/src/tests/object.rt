use crate::tests::{same, same_bytes};
use ep_defs::standard_info;
use nt_object::{BlockKind, ObjectHead, ObjectKind, padding, put_block, put_start, take_head};
use std::alloc::{AllocError, Global};

// The start of a stream of process 1 on one processor: 32 bytes, and the Trace object.
const START: [u8; 102] =
    *b"Nettrace\x14\0\0\0!FastSerialization.1\x05\x05\x01\x04\0\0\0\x04\0\0\0\x05\0\0\0Trace\x06\xb2\x07\x01\0\x04\0\x01\0\0\0\0\0\0\0\0\0\0\0\0\0\0\0\0\0\0\xca\x9a\x3b\0\0\0\0\x08\0\0\0\x01\0\0\0\x01\0\0\0\0\0\0\0\x06";

// A point's block with the body 9 behind the start, where it takes three zeros.
const POINT: [u8; 32] =
    *b"\x05\x05\x01\x02\0\0\0\x02\0\0\0\x07\0\0\0SPBlock\x06\x01\0\0\0\0\0\0\x09\x06";

fn start(alloc: Global) -> Result<Vec<u8>, AllocError> {
    let mut out = Vec::new(alloc);
    put_start(&mut out, &standard_info(1, 1))?;
    Ok(out)
}

fn point_block(alloc: Global) -> Result<Vec<u8>, AllocError> {
    let mut out = Vec::new(alloc);
    put_block(&mut out, 102, BlockKind::Point, &[9])?;
    Ok(out)
}

#[test]
fn a_stream_starts_with_102_bytes(rt: HostRuntime) {
    same_bytes(&rt, start(rt.alloc()), &START);
}

#[test]
fn a_block_is_padded_at_its_offset(rt: HostRuntime) {
    same_bytes(&rt, point_block(rt.alloc()), &POINT);
}

#[test]
fn padding_leads_to_the_next_offset_that_4_divides(rt: HostRuntime) {
    same(&rt, [padding(128), padding(129)], [0, 3]);
}

// The head of a point, and then heads in the order of the parts that are cut or wrong.
const HEADS: &[(&[u8], ObjectHead)] = &[
    (
        &POINT,
        ObjectHead::Head {
            kind: ObjectKind::Block(BlockKind::Point),
            used: 23,
        },
    ),
    (b"", ObjectHead::Short),
    (b"\x01", ObjectHead::BadObject { at: 0 }),
    (b"\x05\x05\x01", ObjectHead::Short),
    (
        b"\x05\x05\x02\x02\0\0\0\x02\0\0\0\x07\0\0\0",
        ObjectHead::BadObject { at: 1 },
    ),
    (
        b"\x05\x05\x01\x02\0\0\0\x02\0\0\0\x08\0\0\0",
        ObjectHead::BadObject { at: 1 },
    ),
    (
        b"\x05\x05\x01\x02\0\0\0\x02\0\0\0\x07\0\0\0SPBlock",
        ObjectHead::Short,
    ),
    (
        b"\x05\x05\x01\x02\0\0\0\x02\0\0\0\x07\0\0\0SQBlock\x06",
        ObjectHead::BadObject { at: 15 },
    ),
    (
        b"\x05\x05\x01\x03\0\0\0\x02\0\0\0\x07\0\0\0SPBlock\x06",
        ObjectHead::BadVersion { at: 3 },
    ),
    (
        b"\x05\x05\x01\x02\0\0\0\x03\0\0\0\x07\0\0\0SPBlock\x06",
        ObjectHead::BadVersion { at: 7 },
    ),
];

#[test]
fn heads_are_told_in_the_order_of_their_parts(rt: HostRuntime) {
    let trace = ObjectHead::Head {
        kind: ObjectKind::Trace,
        used: 21,
    };
    same(&rt, take_head(&START[32..]), trace);
    for row in HEADS {
        same(&rt, take_head(row.0), row.1);
    }
}
