//! A body of blobs in the making.
ghost use Rattle.std.specs.Prelude.{◌≡◌, ℕ, ◌+◌, ◌<◌, ◌≤◌, ◌++◌, ◌↔◌, List, [], ◌∷◌, length, IsTrue, IfOk, OnOk, OnErr, vec_len, vec_capacity};
ghost use Rattle.nt_object.specs.declared.object.BlockKind.TheVariants as block;
ghost use Rattle.ep_defs.specs.declared.item.Item.{Item};
ghost use Rattle.nt_head.specs.Head.{IsHead};
ghost use Rattle.nt_head.specs.Fewest.{head_bytes, KeepsSequence};
ghost use Rattle.nt_blocks.specs.Bodies.{IsBody};
ghost use Rattle.nt_blocks.specs.Drafts.{Draft, blob_body};
ghost use Rattle.nt_blocks.specs.Making.{IsMaking, MayAdd, HoldsBlobs};
ghost use Rattle.nt_head.specs.declared.limits.TheConstants.{HEAD_BYTES};
ghost use Rattle.nt_blocks.specs.declared.limits.TheConstants.{HEADER_BYTES, WRITTEN_BYTES};

use crate::limits::{HEADER_BYTES, WRITTEN_BYTES};
use ep_defs::ranges::bytes_fit;
use nt_head::limits::HEAD_BYTES;
use nt_head::{HeadState, push_next};
use nt_object::BlockKind;
use pt_num::{put_u16, put_u32, put_u64, take_u16, take_u32, take_u64};
use std::alloc::{AllocError, Global};
use std::marker::Model;

// The flag of a body whose blobs have compressed headers.
const COMPRESSED: u16 = 1;

/// The body of an event or metadata block in the making. Contracts see its kind, the bytes of its blobs, what the
/// header of the last of them said, and the least and the greatest of their stamps.
#[derive(Debug, Drop)]
pub struct BlobBlock {
    kind: BlockKind,
    bytes: Vec<u8>,
    // What the header of the last blob said.
    last: HeadState,
    // The least and the greatest stamp of the blobs, 0 where there are none.
    least: u64,
    greatest: u64,
}

impl Model for BlobBlock {
    ghost use Rattle.nt_blocks.specs.Value.{Making, IsBounded};

    ghost Value = { Making };

    ghost view = { λ block. record {
      kind = block.kind;
      bytes = block.bytes.items;
      last = block.last;
      least = block.least;
      greatest = block.greatest;
    } };

    ghost invariant = { λ block. IsBounded block.kind block.bytes.items block.last };
}

impl BlobBlock {
    /// A block without blobs, of events or of metadata. It takes no memory.
    pub fn new(alloc: Global, kind: BlockKind) -> BlobBlock
        requires { HoldsBlobs kind }
        ensures empty { IsMaking [] result }
        ensures kind { result.kind ≡ kind }
    {
        BlobBlock {
            kind,
            bytes: Vec::new(alloc),
            last: HeadState::zero(),
            least: 0,
            greatest: 0,
        }
    }

    /// Which kind of block it is.
    pub fn kind(&self) -> BlockKind
        ensures { result ≡ self.now.kind }
    {
        self.kind
    }

    /// Whether this many bytes more keep the body at 102,400 bytes at most.
    pub fn fits(&self, blob: usize) -> bool
        ensures drafts { (drafts : List Draft) → IsMaking drafts self.now
            → IsTrue result ↔ (length (blob_body drafts) + blob ≤ WRITTEN_BYTES) }
        ensures room { IsTrue result ↔ (HEADER_BYTES + length self.now.bytes + blob ≤ WRITTEN_BYTES) }
    {
        blob <= WRITTEN_BYTES - HEADER_BYTES - self.bytes.len()
    }

    /// Whether it has no blobs.
    pub fn is_empty(&self) -> bool
        ensures { (drafts : List Draft) → IsMaking drafts self.now → IsTrue result ↔ (drafts ≡ []) }
    {
        self.bytes.is_empty()
    }

    /// The whole body, with its header: at most 102,400 bytes.
    pub fn body(&self, alloc: Global) -> Result<Vec<u8>, AllocError>
        ensures ok { (drafts : List Draft) → IsMaking drafts self.now
            → IfOk result (λ body. body.items ≡ blob_body drafts) }
        ensures few { IfOk result (λ body. length body.items ≤ WRITTEN_BYTES) }
        ensures form { (at : ℕ)
            → IfOk result (λ body. (items : List Item) × IsBody self.now.kind at items body.items) }
    {
        let mut body = Vec::with_capacity(alloc, HEADER_BYTES + self.bytes.len())?;
        put_u16(&mut body, HEADER_BYTES as u16)?;
        put_u16(&mut body, COMPRESSED)?;
        put_u64(&mut body, self.least)?;
        put_u64(&mut body, self.greatest)?;
        body.extend_from_slice(&self.bytes)?;
        bytes_fit(&body);
        Ok(body)
    }

    /// Forgets the blobs, and keeps the room that they had.
    pub fn clear(&mut self)
        ensures empty { IsMaking [] self.new }
        ensures kind { self.new.kind ≡ self.old.kind }
    {
        self.bytes.clear();
        self.last = HeadState::zero();
        self.least = 0;
        self.greatest = 0;
    }

    /// Adds a blob with this header, which says the payload's size, and this payload. In an event block the header
    /// names the event's definition; in a metadata block it has the metadata id 0 and no sequence, and the payload
    /// defines an event. Out of memory, the blobs stay as they were.
    #[inline(always)]
    pub fn add(&mut self, head: &HeadState, payload: &[u8]) -> Result<(), AllocError>
        requires room { HEADER_BYTES + length self.old.bytes + HEAD_BYTES + length payload.now ≤ WRITTEN_BYTES }
        requires size { head.now.size ≡ length payload.now }
        requires holds { MayAdd self.old.kind head.now payload.now }
        ensures ok { (drafts : List Draft) → IsMaking drafts self.old
            → OnOk result (IsMaking (drafts ++ record { state = head.now; payload = payload.now } ∷ []) self.new) }
        ensures err { OnErr result (self.new ≡ self.old) }
        ensures kind { self.new.kind ≡ self.old.kind }
    {
        let is_first = self.bytes.is_empty();
        put_blob(&mut self.bytes, &mut self.last, head, payload)?;
        if is_first {
            self.least = head.stamp;
            self.greatest = head.stamp;
        } else {
            self.least = self.least.min(head.stamp);
            self.greatest = self.greatest.max(head.stamp);
        }
        Ok(())
    }
}

// Appends a blob, whose header is the last one then. Out of memory, nothing changes.
#[inline(always)]
fn put_blob(
    out: &mut Vec<u8>,
    last: &mut HeadState,
    head: &HeadState,
    payload: &[u8],
) -> Result<(), AllocError>
    requires keeps { head.now.metadata ≡ 0 → KeepsSequence last.old head.now }
    requires size { length payload.now ≤ WRITTEN_BYTES }
    ensures ok { OnOk result (out.new.items ≡ out.old.items ++ head_bytes last.old head.now ++ payload.now) }
    ensures form { OnOk result (IsHead last.old head.now (head_bytes last.old head.now)) }
    ensures few { OnOk result (length out.new.items ≤ length out.old.items + HEAD_BYTES + length payload.now) }
    ensures last { OnOk result (last.new ≡ head.now) }
    ensures err { OnErr result (out.new.items ≡ out.old.items) }
    ensures stays { OnErr result (last.new ≡ last.old) }
{
    out.reserve(HEAD_BYTES + payload.len())?;
    push_next(out, last, head);
    push_payload(out, payload);
    Ok(())
}

// Appends a payload, for which there is room. Most have a few bytes: four, eight or twelve are put without a call.
#[inline(always)]
fn push_payload(out: &mut Vec<u8>, payload: &[u8])
    requires { vec_len out.old + length payload.now ≤ vec_capacity out.old }
    ensures { out.new.items ≡ out.old.items ++ payload.now }
{
    let rest = push_eight(out, payload);
    // Where eight bytes or more are left, they go out by eight first.
    let rest = if rest.len() < 8 {
        push_four(out, rest)
    } else {
        rest
    };
    if !rest.is_empty() {
        push_rest(out, rest);
    }
}

// Appends what is left of a payload.
fn push_rest(out: &mut Vec<u8>, payload: &[u8])
    requires { vec_len out.old + length payload.now ≤ vec_capacity out.old }
    ensures { out.new.items ≡ out.old.items ++ payload.now }
{
    let rest = push_eight(out, payload);
    let rest = push_eight(out, rest);
    let rest = push_four(out, rest);
    let rest = push_two(out, rest);
    if !rest.is_empty() {
        let Ok(()) = out.extend_from_slice(rest) else {
            unreachable!()
        };
    }
}

// Appends the first eight bytes in one piece, if there are as many, and answers the others.
#[inline(always)]
fn push_eight<'a>(out: &mut Vec<u8>, bytes: &'a [u8]) -> &'a [u8]
    requires { vec_len out.old + length bytes.now ≤ vec_capacity out.old }
    ensures items { out.new.items ++ result.now ≡ out.old.items ++ bytes.now }
    ensures room { vec_len out.new + length result.now ≤ vec_capacity out.new }
{
    let Some(word) = take_u64(bytes) else {
        return bytes;
    };
    let Ok(()) = put_u64(out, word) else {
        unreachable!()
    };
    &bytes[8..]
}

// The same of four bytes.
#[inline(always)]
fn push_four<'a>(out: &mut Vec<u8>, bytes: &'a [u8]) -> &'a [u8]
    requires { vec_len out.old + length bytes.now ≤ vec_capacity out.old }
    ensures items { out.new.items ++ result.now ≡ out.old.items ++ bytes.now }
    ensures room { vec_len out.new + length result.now ≤ vec_capacity out.new }
{
    let Some(word) = take_u32(bytes) else {
        return bytes;
    };
    let Ok(()) = put_u32(out, word) else {
        unreachable!()
    };
    &bytes[4..]
}

// The same of two.
#[inline(always)]
fn push_two<'a>(out: &mut Vec<u8>, bytes: &'a [u8]) -> &'a [u8]
    requires { vec_len out.old + length bytes.now ≤ vec_capacity out.old }
    ensures items { out.new.items ++ result.now ≡ out.old.items ++ bytes.now }
    ensures room { vec_len out.new + length result.now ≤ vec_capacity out.new }
{
    let Some(word) = take_u16(bytes) else {
        return bytes;
    };
    let Ok(()) = put_u16(out, word) else {
        unreachable!()
    };
    &bytes[2..]
}
