//! Writing the start of a stream and its blocks.
ghost use Rattle.std.specs.Prelude.{◌≡◌, ◌+◌, ◌^◌, ◌<◌, ◌≤◌, [], ◌∷◌, ◌++◌, length, replicate, IsOk, OnOk, OnErr, vec_len, vec_capacity};
ghost use Rattle.nt_object.specs.Making.{begun_object};
ghost use Rattle.pt_num.specs.Begins.{Keeps};
ghost use Rattle.nt_object.specs.Object.{block_bytes, block_len, block_name, padded, to_multiple_of_4, trace_payload, CanStand};
ghost use Rattle.nt_object.specs.Stream.{stream_start, IsStream};
ghost use Rattle.nt_object.specs.declared.limits.TheConstants.{START_BYTES};

use crate::limits::{BEGIN_OBJECT, BLOCK_VERSION, END_OBJECT, NULL_REFERENCE, TRACE_VERSION};
use ep_defs::TraceInfo;
use ep_defs::ranges::info_fits;
use pt_num::{put_u16, put_u32, put_u64};
use std::alloc::AllocError;

// Bytes of a block before its padding, besides its name: three tags, three numbers, a tag and the size.
const BEFORE_PADDING: u64 = 20;

/// The blocks of a stream (NetTrace, version 4).
#[derive(Clone, Copy, Debug, PartialEq, Eq)]
pub enum BlockKind {
    Event,
    Metadata,
    Stack,
    Point,
}

impl BlockKind {
    // The name of the block's type.
    pub(crate) fn name(self) -> &'static [u8]
        ensures { result.now ≡ block_name self }
    {
        match self {
            BlockKind::Event => b"EventBlock",
            BlockKind::Metadata => b"MetadataBlock",
            BlockKind::Stack => b"StackBlock",
            BlockKind::Point => b"SPBlock",
        }
    }
}

/// Appends the 32 bytes of the stream's head and the 70 of its Trace object. With room for them it takes no memory.
pub fn put_start(out: &mut Vec<u8>, info: &TraceInfo) -> Result<(), AllocError>
    ensures ok { OnOk result (out.new.items ≡ out.old.items ++ stream_start info.now) }
    // With the null reference it is a stream without blocks.
    ensures form { IsStream info.now [] (stream_start info.now ++ 1 ∷ []) }
    ensures size { length (stream_start info.now) ≡ START_BYTES }
    ensures err { OnErr result (out.new.items ≡ out.old.items) }
    ensures len { OnOk result (vec_len out.new ≡ vec_len out.old + START_BYTES) }
    ensures room { vec_len out.old + START_BYTES ≤ vec_capacity out.old → IsOk result }
    ensures capacity { vec_capacity out.old ≤ vec_capacity out.new }
{
    info_fits(info);
    let start = out.len();
    let put = append_start(out, info);
    if put.is_err() {
        out.truncate(start);
    }
    put
}

/// Appends a block that is to stand at this offset of the stream, padded by zeros.
///
/// It takes 21 bytes beside its type's name, at most three zeros and the body, and no memory where there is room for
/// them.
pub fn put_block(out: &mut Vec<u8>, at: u64, kind: BlockKind, body: &[u8]) -> Result<(), AllocError>
    requires at { at < 2 ^ 62 }
    requires body { length body.now < 2 ^ 31 }
    ensures ok { OnOk result (out.new.items ≡ out.old.items ++ block_bytes (padded at kind body.now)) }
    ensures form { CanStand at (padded at kind body.now) }
    ensures size { length (block_bytes (padded at kind body.now)) ≡ block_len at kind (length body.now) }
    ensures err { OnErr result (out.new.items ≡ out.old.items) }
    ensures len { OnOk result (vec_len out.new ≡ vec_len out.old + block_len at kind (length body.now)) }
    ensures room { vec_len out.old + block_len at kind (length body.now) ≤ vec_capacity out.old
        → IsOk result }
    ensures capacity { vec_capacity out.old ≤ vec_capacity out.new }
{
    let start = out.len();
    let put = append_block(out, at, kind, body);
    if put.is_err() {
        out.truncate(start);
    }
    put
}

/// How many bytes bring an offset to the next one that 4 divides.
pub fn padding(at: u64) -> usize
    ensures { result ≡ to_multiple_of_4 at }
{
    ((4 - at % 4) % 4) as usize
}

fn append_start(out: &mut Vec<u8>, info: &TraceInfo) -> Result<(), AllocError>
    ensures ok { OnOk result (out.new.items ≡ out.old.items ++ stream_start info.now) }
    ensures err { OnErr result (Keeps out.old.items out.new.items) }
    ensures len { OnOk result (vec_len out.new ≡ vec_len out.old + START_BYTES) }
    ensures room { vec_len out.old + START_BYTES ≤ vec_capacity out.old → IsOk result }
    ensures capacity { vec_capacity out.old ≤ vec_capacity out.new }
{
    out.extend_from_slice(b"Nettrace")?;
    put_u32(out, 20)?;
    out.extend_from_slice(b"!FastSerialization.1")?;
    append_object_head(out, TRACE_VERSION, b"Trace")?;
    append_trace(out, info)?;
    out.push(END_OBJECT)?;
    Ok(())
}

fn append_trace(out: &mut Vec<u8>, info: &TraceInfo) -> Result<(), AllocError>
    ensures ok { OnOk result (out.new.items ≡ out.old.items ++ trace_payload info.now) }
    ensures err { OnErr result (Keeps out.old.items out.new.items) }
    ensures len { OnOk result (vec_len out.new ≡ vec_len out.old + 48) }
    ensures room { vec_len out.old + 48 ≤ vec_capacity out.old → IsOk result }
    ensures capacity { vec_capacity out.old ≤ vec_capacity out.new }
{
    for part in info.date {
        put_u16(out, part)?;
    }
    put_u64(out, info.sync)?;
    put_u64(out, info.frequency)?;
    put_u32(out, info.pointer_size)?;
    put_u32(out, info.process_id)?;
    put_u32(out, info.processors)?;
    put_u32(out, info.rate)
}

fn append_block(out: &mut Vec<u8>, at: u64, kind: BlockKind, body: &[u8]) -> Result<(), AllocError>
    requires at { at < 2 ^ 62 }
    requires body { length body.now < 2 ^ 31 }
    ensures ok { OnOk result (out.new.items ≡ out.old.items ++ block_bytes (padded at kind body.now)) }
    ensures err { OnErr result (Keeps out.old.items out.new.items) }
    ensures len { OnOk result (vec_len out.new ≡ vec_len out.old + block_len at kind (length body.now)) }
    ensures room { vec_len out.old + block_len at kind (length body.now) ≤ vec_capacity out.old
        → IsOk result }
    ensures capacity { vec_capacity out.old ≤ vec_capacity out.new }
{
    let name = kind.name();
    append_object_head(out, BLOCK_VERSION, name)?;
    put_u32(out, body.len() as u32)?;
    append_zeros(out, padding(at + BEFORE_PADDING + name.len() as u64))?;
    out.extend_from_slice(body)?;
    out.push(END_OBJECT)?;
    Ok(())
}

// Appends what an object begins with, up to its payload.
fn append_object_head(out: &mut Vec<u8>, version: u32, name: &[u8]) -> Result<(), AllocError>
    requires { length name.now < 2 ^ 32 }
    ensures ok { OnOk result (out.new.items ≡ out.old.items ++ begun_object version name.now) }
    ensures err { OnErr result (Keeps out.old.items out.new.items) }
    ensures len { OnOk result (vec_len out.new ≡ vec_len out.old + 16 + length name.now) }
    ensures room { vec_len out.old + 16 + length name.now ≤ vec_capacity out.old → IsOk result }
    ensures capacity { vec_capacity out.old ≤ vec_capacity out.new }
{
    out.extend_from_slice(&[BEGIN_OBJECT, BEGIN_OBJECT, NULL_REFERENCE])?;
    put_u32(out, version)?;
    put_u32(out, version)?;
    put_u32(out, name.len() as u32)?;
    out.extend_from_slice(name)?;
    out.push(END_OBJECT)?;
    Ok(())
}

fn append_zeros(out: &mut Vec<u8>, count: usize) -> Result<(), AllocError>
    requires { count < 4 }
    ensures ok { OnOk result (out.new.items ≡ out.old.items ++ replicate count 0) }
    ensures err { OnErr result (out.new.items ≡ out.old.items) }
    ensures len { OnOk result (vec_len out.new ≡ vec_len out.old + count) }
    ensures room { vec_len out.old + count ≤ vec_capacity out.old → IsOk result }
    ensures capacity { vec_capacity out.old ≤ vec_capacity out.new }
{
    let end = out.len() + count;
    out.resize(end, 0)
}
