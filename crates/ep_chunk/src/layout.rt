//! The bytes of a record.
ghost use Rattle.std.specs.Prelude.{◌≡◌, ◌≤◌, ◌+◌, ◌*◌, ◌++◌, length, take, drop, vec_len, vec_capacity};
ghost use Rattle.byteorder.specs.Endian.{little_bytes, little_number};
ghost use Rattle.ep_chunk.specs.Record.{record_of, AreFrames, IsRecord, size_of, head_bytes, bytes_of, frame_bytes};
ghost use Rattle.ep_chunk.specs.Held.{HasRecord, record_in};
ghost use Rattle.ep_chunk.specs.Places.{Tells};

use crate::limits::{CHUNK_LEN, FRAME_LEN, HEAD_LEN};
use crate::rec::{RecIn, RecOut};
use byteorder::{ByteOrder, LittleEndian};

// The number of 32 bits at a place.
pub(crate) fn u32_at(bytes: &[u8], place: usize) -> u32
    requires { place + 4 ≤ length bytes.now }
    ensures { result ≡ little_number 4 (drop place bytes.now) }
{
    LittleEndian::read_u32(&bytes[place..])
}

// The number of 64 bits at a place.
pub(crate) fn u64_at(bytes: &[u8], place: usize) -> u64
    requires { place + 8 ≤ length bytes.now }
    ensures { result ≡ little_number 8 (drop place bytes.now) }
{
    LittleEndian::read_u64(&bytes[place..])
}

// The 16 bytes at a place.
pub(crate) fn id_at(bytes: &[u8], place: usize) -> [u8; 16]
    requires { place + 16 ≤ length bytes.now }
    ensures { result ≡ take 16 (drop place bytes.now) }
{
    let mut id = [0; 16];
    id.copy_from_slice(&bytes[place..place + 16]);
    id
}

// Puts bytes after those before a place.
fn put_at(head: &mut [u8], place: usize, piece: &[u8])
    requires { place + length piece.now ≤ length head.old }
    ensures { take (place + length piece.now) head.new ≡ take place head.old ++ piece.now }
{
    head[place..place + piece.len()].copy_from_slice(piece);
}

// What stands before the frames of a record of this size.
fn head_of(rec: &RecIn, size: usize) -> [u8; HEAD_LEN]
    requires size { size ≡ size_of (record_of rec.now) }
    requires fits { size ≤ CHUNK_LEN }
    ensures head { result ≡ head_bytes (record_of rec.now) }
    ensures fitting { AreFrames rec.now.frames.now → IsRecord (record_of rec.now) }
{
    let mut head = [0; HEAD_LEN];
    put_at(&mut head, 0, &(size as u32).to_le_bytes());
    put_at(&mut head, 4, &rec.event.to_le_bytes());
    put_at(&mut head, 8, &rec.number.to_le_bytes());
    put_at(&mut head, 12, &(rec.frames.len() as u32).to_le_bytes());
    put_at(&mut head, 16, &(rec.payload.len() as u32).to_le_bytes());
    put_at(&mut head, 20, &rec.thread.to_le_bytes());
    put_at(&mut head, 28, &rec.stamp.to_le_bytes());
    put_at(&mut head, 36, &rec.activity);
    put_at(&mut head, 52, &rec.related);
    head
}

// Appends bytes for which there is room.
fn put(bytes: &mut Vec<u8>, piece: &[u8])
    requires { vec_len bytes.old + length piece.now ≤ vec_capacity bytes.old }
    ensures items { bytes.new.items ≡ bytes.old.items ++ piece.now }
    ensures len { vec_len bytes.new ≡ vec_len bytes.old + length piece.now }
    ensures room { vec_capacity bytes.old ≤ vec_capacity bytes.new }
{
    if bytes.extend_from_slice(piece).is_err() {
        unreachable!();
    }
}

// Appends the frames, for which there is room.
fn put_frames(bytes: &mut Vec<u8>, frames: &[u64])
    requires { vec_len bytes.old + FRAME_LEN * length frames.now ≤ vec_capacity bytes.old }
    ensures items { bytes.new.items ≡ bytes.old.items ++ frame_bytes frames.now }
    ensures fitting { AreFrames frames.now }
    ensures len { vec_len bytes.new ≡ vec_len bytes.old + FRAME_LEN * length frames.now }
    ensures room { vec_capacity bytes.old ≤ vec_capacity bytes.new }
{
    for frame in frames {
        put(bytes, &frame.to_le_bytes());
    }
}

// Appends the first bytes in one piece, if there are as many, and answers the others.
#[inline(always)]
fn put_piece<'a, const N: usize>(bytes: &mut Vec<u8>, payload: &'a [u8]) -> &'a [u8]
    requires piece { N ≤ CHUNK_LEN }
    requires room { vec_len bytes.old + length payload.now ≤ vec_capacity bytes.old }
    ensures items { bytes.new.items ++ result.now ≡ bytes.old.items ++ payload.now }
    ensures left { vec_len bytes.new + length result.now ≤ vec_capacity bytes.new }
    ensures room { vec_capacity bytes.old ≤ vec_capacity bytes.new }
{
    let Some((piece, rest)) = payload.split_first_chunk::<N>() else {
        return payload;
    };
    let piece = *piece;
    put(bytes, &piece);
    rest
}

// Appends a payload, for which there is room. Most have a few bytes, which go in pieces of eight and of four, without a
// call.
fn put_payload(bytes: &mut Vec<u8>, payload: &[u8])
    requires { vec_len bytes.old + length payload.now ≤ vec_capacity bytes.old }
    ensures items { bytes.new.items ≡ bytes.old.items ++ payload.now }
    ensures room { vec_capacity bytes.old ≤ vec_capacity bytes.new }
{
    let rest = put_piece::<8>(bytes, payload);
    let rest = put_piece::<8>(bytes, rest);
    let rest = put_piece::<4>(bytes, rest);
    if !rest.is_empty() {
        put(bytes, rest);
    }
}

// Appends the bytes of a record of this size, for which there is room.
pub(crate) fn put_record(bytes: &mut Vec<u8>, rec: &RecIn, size: usize)
    requires size { size ≡ size_of (record_of rec.now) }
    requires fits { vec_len bytes.old + size ≤ CHUNK_LEN }
    requires reserved { CHUNK_LEN ≤ vec_capacity bytes.old }
    ensures items { bytes.new.items ≡ bytes.old.items ++ bytes_of (record_of rec.now) }
    ensures fitting { IsRecord (record_of rec.now) }
    ensures room { vec_capacity bytes.old ≤ vec_capacity bytes.new }
{
    put(bytes, &head_of(rec, size));
    put_frames(bytes, rec.frames);
    put_payload(bytes, rec.payload);
}

// The record with which these bytes of a chunk begin. They begin at this place.
#[tactic(auto, using(crate::proofs::Read::pieces_held))]
pub(crate) fn record_at(bytes: &[u8], place: usize) -> RecOut<'_>
    requires stands { HasRecord bytes.now }
    requires within { place ≤ CHUNK_LEN }
    ensures told { Tells (record_in bytes.now) result }
    ensures next { result.next ≡ place + size_of (record_in bytes.now) }
{
    let frames_len = FRAME_LEN * u32_at(bytes, 12) as usize;
    let payload_len = u32_at(bytes, 16) as usize;
    let (frames, rest) = bytes[HEAD_LEN..].split_at(frames_len);
    RecOut {
        event: u32_at(bytes, 4),
        number: u32_at(bytes, 8),
        thread: u64_at(bytes, 20),
        stamp: u64_at(bytes, 28),
        activity: id_at(bytes, 36),
        related: id_at(bytes, 52),
        frames,
        payload: &rest[..payload_len],
        next: place + u32_at(bytes, 0) as usize,
    }
}
