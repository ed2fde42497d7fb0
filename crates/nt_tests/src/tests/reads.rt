//! A whole stream, cut anywhere and changed in many places.
ghost use Rattle.std.specs.Prelude.{◌+◌, ◌<◌, ◌≤◌, ◌^◌, length};
ghost use Rattle.nt_read.specs.Reading.{used};

use crate::tests::same;
use ep_defs::{Item, ItemKind};
use nt_read::{ReadFault, ReadKind, TraceReader};
use std::alloc::Global;

// One definition, one event of it, and a point. Its objects end at 102, 196, 256 and 309.
const STREAM: [u8; 310] =
    *b"\x4e\x65\x74\x74\x72\x61\x63\x65\x14\x00\x00\x00\x21\x46\x61\x73\x74\x53\x65\x72\x69\x61\x6c\x69\x7a\x61\x74\x69\x6f\x6e\x2e\x31\x05\x05\x01\x04\x00\x00\x00\x04\x00\x00\x00\x05\x00\x00\x00\x54\x72\x61\x63\x65\x06\xb2\x07\x01\x00\x04\x00\x01\x00\x00\x00\x00\x00\x00\x00\x00\x00\x00\x00\x00\x00\x00\x00\x00\x00\x00\xca\x9a\x3b\x00\x00\x00\x00\x08\x00\x00\x00\x01\x00\x00\x00\x01\x00\x00\x00\x00\x00\x00\x00\x06\x05\x05\x01\x02\x00\x00\x00\x02\x00\x00\x00\x0d\x00\x00\x00\x4d\x65\x74\x61\x64\x61\x74\x61\x42\x6c\x6f\x63\x6b\x06\x3b\x00\x00\x00\x00\x14\x00\x01\x00\x00\x00\x00\x00\x00\x00\x00\x00\x00\x00\x00\x00\x00\x00\x00\x00\xc0\x00\x24\x01\x00\x00\x00\x50\x00\x00\x00\x01\x00\x00\x00\x45\x00\x00\x00\x01\x00\x00\x00\x00\x00\x00\x00\x00\x00\x00\x00\x04\x00\x00\x00\x00\x00\x00\x00\x06\x05\x05\x01\x02\x00\x00\x00\x02\x00\x00\x00\x0a\x00\x00\x00\x45\x76\x65\x6e\x74\x42\x6c\x6f\x63\x6b\x06\x1b\x00\x00\x00\x00\x00\x14\x00\x01\x00\x64\x00\x00\x00\x00\x00\x00\x00\x64\x00\x00\x00\x00\x00\x00\x00\x07\x01\x00\x01\x00\x01\x64\x06\x05\x05\x01\x02\x00\x00\x00\x02\x00\x00\x00\x07\x00\x00\x00\x53\x50\x42\x6c\x6f\x63\x6b\x06\x18\x00\x00\x00\x00\xc8\x00\x00\x00\x00\x00\x00\x00\x01\x00\x00\x00\x01\x00\x00\x00\x00\x00\x00\x00\x01\x00\x00\x00\x06\x01";

const BYTES: usize = STREAM.len();

fn bad(at: u64, kind: ReadKind) -> Result<(), ReadFault> {
    Err(ReadFault::Bad { at, kind })
}

// Feeds these bytes in pieces of at most this many, cut at random.
fn feed_cut(
    reader: &mut TraceReader,
    bytes: &[u8],
    most: u32,
    seed: u32,
    items: &mut Vec<Item>,
) -> Result<(), ReadFault>
    requires some { 0 < most }
    requires few { used reader.old + length bytes.now < 2 ^ 63 }
    ensures { used reader.new ≤ used reader.old + length bytes.now }
{
    let mut from = 0;
    let mut state = seed;
    while from < bytes.len() {
        state = state.wrapping_mul(1_103_515_245).wrapping_add(12_345);
        let piece = (1 + (state >> 16) % most) as usize;
        let to = from + piece.min(bytes.len() - from);
        reader.feed(&bytes[from..to], items)?;
        from = to;
    }
    Ok(())
}

// What a reader answers to these bytes in such pieces.
fn answer_cut(alloc: Global, bytes: &[u8], most: u32, seed: u32) -> Result<(), ReadFault>
    requires some { 0 < most }
    requires few { length bytes.now < 2 ^ 32 }
{
    let mut reader = TraceReader::new(alloc);
    feed_cut(&mut reader, bytes, most, seed, &mut Vec::new(alloc))?;
    reader.finish()
}

// What it answers to them in one piece.
fn answer(alloc: Global, bytes: &[u8]) -> Result<(), ReadFault>
    requires { length bytes.now < 2 ^ 32 }
{
    let mut reader = TraceReader::new(alloc);
    reader.feed(bytes, &mut Vec::new(alloc))?;
    reader.finish()
}

// The answers to these bytes in one piece and byte by byte.
fn both(alloc: Global, bytes: &[u8]) -> [Result<(), ReadFault>; 2]
    requires { length bytes.now < 2 ^ 32 }
{
    [answer(alloc, bytes), answer_cut(alloc, bytes, 1, 0)]
}

#[test]
fn a_part_is_truncated_at_its_end(rt: HostRuntime) {
    for n in 0..BYTES {
        let truncated = bad(n as u64, ReadKind::Truncated);
        same(&rt, both(rt.alloc(), &STREAM[..n]), [truncated; 2]);
    }
}

#[test]
fn cuts_change_nothing(rt: HostRuntime) {
    for seed in 0..500 {
        let most = 1 + seed % 100;
        same(
            &rt,
            (seed, answer_cut(rt.alloc(), &STREAM, most, seed)),
            (seed, Ok(())),
        );
    }
}

// The number of objects among the first this many bytes, each of which tells one item.
fn objects(n: usize) -> usize {
    [102, 196, 256, 309].iter().filter(|end| **end <= n).count()
}

// How many items a reader has given of the first this many bytes, and how many of all, if it reads both parts.
fn given(alloc: Global, n: usize) -> Result<(usize, usize), ReadFault> {
    let mut reader = TraceReader::new(alloc);
    let mut items = Vec::new(alloc);
    let (first, rest) = STREAM.split_at(n.min(BYTES));
    reader.feed(first, &mut items)?;
    let before = items.len();
    reader.feed(rest, &mut items)?;
    reader.finish()?;
    Ok((before, items.len()))
}

#[test]
fn items_are_given_when_their_object_ends(rt: HostRuntime) {
    for n in 0..=BYTES {
        same(&rt, (n, given(rt.alloc(), n)), (n, Ok((objects(n), 4))));
    }
}

// Where the items of the stream stand, read byte by byte.
fn places(alloc: Global) -> Result<[Option<u64>; 5], ReadFault> {
    let mut reader = TraceReader::new(alloc);
    let mut items = Vec::new(alloc);
    feed_cut(&mut reader, &STREAM, 1, 0, &mut items)?;
    let place = |index: usize| items.get(index).map(|item| item.at);
    Ok([place(0), place(1), place(2), place(3), place(4)])
}

#[test]
fn items_stand_at_their_offsets(rt: HostRuntime) {
    let wanted = [Some(53), Some(156), Some(248), Some(284), None];
    same(&rt, places(rt.alloc()), Ok(wanted));
}

// The stream with another byte in this place.
fn with(place: usize, byte: u8) -> [u8; BYTES] {
    let mut bytes = STREAM;
    if place < BYTES {
        bytes[place] = byte;
    }
    bytes
}

// The metadata id of the event in these bytes, or 0 where there is none.
fn event_id(alloc: Global, bytes: &[u8; BYTES]) -> u32 {
    let mut items = Vec::new(alloc);
    if TraceReader::new(alloc).feed(bytes, &mut items).is_err() {
        return 0;
    }
    match items.get(2) {
        Some(
            Item {
                kind: ItemKind::Event { metadata, .. },
                ..
            },
        ) => *metadata,
        _ => 0,
    }
}

#[test]
fn an_event_of_no_definition_is_read(rt: HostRuntime) {
    same(&rt, event_id(rt.alloc(), &with(249, 5)), 5);
}

// A place of the stream, another byte there, and where and why the stream is refused then.
type Change = (usize, u8, u64, ReadKind);

const WRONG_HEADS: &[Change] = &[
    (0, 0, 0, ReadKind::BadMagic),
    (32, 6, 32, ReadKind::BadObject),
    (32, 1, 32, ReadKind::BadObject),
    (33, 4, 33, ReadKind::BadObject),
    (43, 6, 33, ReadKind::BadObject),
    (35, 5, 35, ReadKind::BadVersion),
    (39, 5, 39, ReadKind::BadVersion),
    (47, 88, 47, ReadKind::BadObject),
];

const WRONG_BODIES: &[Change] = &[
    (134, 1, 131, ReadKind::TooLarge { size: 16_777_275 }),
    (136, 19, 136, ReadKind::BadBlock),
    (138, 0, 138, ReadKind::Uncompressed),
    (159, 0, 159, ReadKind::BadMeta),
    (191, 1, 159, ReadKind::BadMeta),
    (248, 6, 248, ReadKind::BadHead),
    (254, 228, 248, ReadKind::BadHead),
    (292, 2, 284, ReadKind::BadBlock),
];

const WRONG_ENDS: &[Change] = &[
    (101, 0, 101, ReadKind::BadObject),
    (308, 5, 308, ReadKind::BadObject),
    (309, 2, 309, ReadKind::BadObject),
];

// The answers to the stream with another byte in this place.
fn changed(alloc: Global, place: usize, byte: u8) -> [Result<(), ReadFault>; 2] {
    both(alloc, &with(place, byte))
}

#[test]
fn wrong_heads_are_refused_where_they_stand(rt: HostRuntime) {
    for row in WRONG_HEADS {
        same(
            &rt,
            changed(rt.alloc(), row.0, row.1),
            [bad(row.2, row.3); 2],
        );
    }
}

#[test]
fn wrong_bodies_are_refused_where_they_stand(rt: HostRuntime) {
    for row in WRONG_BODIES {
        same(
            &rt,
            changed(rt.alloc(), row.0, row.1),
            [bad(row.2, row.3); 2],
        );
    }
}

#[test]
fn wrong_ends_are_refused_where_they_stand(rt: HostRuntime) {
    for row in WRONG_ENDS {
        same(
            &rt,
            changed(rt.alloc(), row.0, row.1),
            [bad(row.2, row.3); 2],
        );
    }
}

// The answers to the stream with a byte behind its end.
fn longer(alloc: Global) -> [Result<(), ReadFault>; 2] {
    let mut longer = [7; 311];
    longer[..BYTES].copy_from_slice(&STREAM);
    both(alloc, &longer)
}

#[test]
fn a_byte_of_padding_may_be_any_and_a_byte_after_the_end_none(rt: HostRuntime) {
    same(&rt, changed(rt.alloc(), 135, 255), [Ok(()); 2]);
    same(&rt, longer(rt.alloc()), [bad(310, ReadKind::BadObject); 2]);
}

// The answers to a stream that has its start twice: to the second one, to the rest, and at the end; and how many items it told.
fn refused(alloc: Global) -> Result<([Result<(), ReadFault>; 3], usize), ReadFault> {
    let mut reader = TraceReader::new(alloc);
    let mut items = Vec::new(alloc);
    reader.feed(&STREAM[..102], &mut items)?;
    let second = reader.feed(&STREAM[..102], &mut items);
    let rest = reader.feed(&STREAM[102..], &mut items);
    Ok(([second, rest, reader.finish()], items.len()))
}

#[test]
fn a_refusal_stays(rt: HostRuntime) {
    let wanted = [bad(102, ReadKind::BadObject); 3];
    same(&rt, refused(rt.alloc()), Ok((wanted, 1)));
}
