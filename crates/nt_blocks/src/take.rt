//! Bodies that are taken: the items that they hold, or the first thing that is wrong with them.
ghost use Rattle.std.specs.Prelude.{◌≡◌, ℕ, ◌+◌, ◌<◌, ◌≤◌, ◌^◌, Ok, Err, length, drop, IfSome, IsNone, IfOk, IfErr, OnOk, OnErr};
ghost use Rattle.nt_blocks.specs.Making.{HoldsBlobs};
ghost use Rattle.nt_object.specs.declared.object.BlockKind.TheVariants as block;
ghost use Rattle.nt_blocks.specs.Refusals.{BadBlock, BadHead, StackPlace, blob_at, blob_body_at, body_at, header_at, held_at, may_head, point_body_at, refusal, stack_at, stack_body_at, thread_at, threads_at};
ghost use Rattle.nt_blocks.specs.Taking.{Appends, IsFault, StandsWithin};
ghost use Rattle.pt_num.specs.Begins.{Keeps};
ghost use Rattle.nt_blocks.specs.state.Taken.{CountsStacks, CountsThreads, ReadsBlob, ReadsHead, ReadsStack, ReadsThread};

use crate::limits::{HEADER_BYTES, LAST_COUNT};
use byteorder::{ByteOrder, LittleEndian};
use ep_defs::{Bytes, Item, ItemKind, ThreadNumbers};
use nt_head::{HeadState, take_next};
use nt_meta::{TakenMeta, take_meta};
use nt_object::BlockKind;
use pt_num::{take_u32, take_u64};
use std::alloc::{AllocError, AllocFailed, Global};

// Where the flags stand in the header of a body of blobs.
const FLAGS_PLACE: usize = 2;

// Bytes before the first stack of a body: the first id and the number of stacks.
const STACKS_PLACE: usize = 8;

// Bytes before the first thread of a point: the stamp and the number of threads.
const THREADS_PLACE: usize = 12;

// Bytes of a number of 32 bits, and of one of 64.
const SHORT_BYTES: usize = 4;

const LONG_BYTES: usize = 8;

// Bytes of a thread and its number.
const THREAD_BYTES: usize = 12;

/// Why no items are taken from a body. Places are counted in bytes from the body's first one.
#[derive(Clone, Copy, Debug, PartialEq, Eq, Drop)]
pub enum BodyFault {
    /// The body's header is cut or wrong, a count or a first id is 2^31 or more, or stacks or threads run past the
    /// body or leave bytes over. It stands at 0.
    BadBlock { at: usize },
    /// The header of the blob that begins there is cut or has a varuint that is too wide, its payload runs past the
    /// body, or it is an event's and names no definition.
    BadHead { at: usize },
    /// The payload of a metadata blob, which begins there, defines no event.
    BadMeta { at: usize },
    /// The flags of the body's header, which stand there, say that the headers of blobs aren't compressed.
    Uncompressed { at: usize },
    OutOfMemory,
}

impl From<AllocError> for BodyFault {
    ghost use Rattle.nt_blocks.specs.declared.take.BodyFault.{BodyFault};

    ghost from_gives = { λ _ fault. fault ≡ BodyFault.OutOfMemory };

    fn from(_error: AllocError) -> Self {
        BodyFault::OutOfMemory
    }
}

impl<T: Drop> From<AllocFailed<T>> for BodyFault {
    ghost use Rattle.nt_blocks.specs.declared.take.BodyFault.{BodyFault};

    ghost from_gives = { λ _ fault. fault ≡ BodyFault.OutOfMemory };

    fn from(_failed: AllocFailed<T>) -> Self {
        BodyFault::OutOfMemory
    }
}

/// Takes a whole body of this kind, which stands at this offset of the stream, and appends its items.
///
/// The fault is the first in reading order, and stands in the body or at its end. After one the items are as before. An
/// empty payload takes no memory, nor does a claimed count.
pub fn take_body(
    alloc: Global,
    kind: BlockKind,
    body: &[u8],
    at: u64,
    items: &mut Vec<Item>,
) -> Result<(), BodyFault>
    requires { at + length body.now < 2 ^ 63 }
    ensures ok { OnOk result (Appends (body_at kind at body.now) items.old.items items.new.items) }
    ensures fault { IfErr result (λ fault. IsFault (body_at kind at body.now) at fault) }
    ensures stands { IfErr result (λ fault. StandsWithin (length body.now) fault) }
    ensures err { OnErr result (items.new.items ≡ items.old.items) }
{
    let count = items.len();
    let taken = match kind {
        BlockKind::Event | BlockKind::Metadata => take_blobs(alloc, kind, body, at, items),
        BlockKind::Stack => take_stacks(alloc, body, at, items),
        BlockKind::Point => take_point(alloc, body, at, items),
    };
    if taken.is_err() {
        items.truncate(count);
    }
    taken
}

/// The size of the header of a body of blobs, in bytes: the first blob stands behind it, or the body ends there.
///
/// The fault is that of `take_body` for a body with such a header.
pub fn header_size(body: &[u8]) -> Result<usize, BodyFault>
    ensures ok { IfOk result (λ size. (at : ℕ) → header_at at body.now ≡ Ok size) }
    ensures within { IfOk result (λ size. size ≤ length body.now) }
    ensures fault { IfErr result (λ fault. (at : ℕ) → IsFault (header_at at body.now) at fault) }
    ensures stands { IfErr result (λ fault. StandsWithin (length body.now) fault) }
{
    if body.len() < HEADER_BYTES {
        return Err(BodyFault::BadBlock { at: 0 });
    }
    let size = usize::from(LittleEndian::read_u16(body));
    if size < HEADER_BYTES || size > body.len() {
        return Err(BodyFault::BadBlock { at: 0 });
    }
    let flags = LittleEndian::read_u16(&body[FLAGS_PLACE..]);
    if flags % 2 == 0 {
        return Err(BodyFault::Uncompressed { at: FLAGS_PLACE });
    }
    Ok(size)
}

fn take_blobs(
    alloc: Global,
    kind: BlockKind,
    body: &[u8],
    at: u64,
    items: &mut Vec<Item>,
) -> Result<(), BodyFault>
    requires holds { HoldsBlobs kind }
    requires at { at + length body.now < 2 ^ 63 }
    ensures ok { OnOk result (Appends (blob_body_at kind at body.now) items.old.items items.new.items) }
    ensures fault { IfErr result (λ fault. IsFault (blob_body_at kind at body.now) at fault) }
    ensures stands { IfErr result (λ fault. StandsWithin (length body.now) fault) }
    ensures err { OnErr result (Keeps items.old.items items.new.items) }
{
    let mut here = header_size(body)?;
    let mut before = HeadState::zero();
    while here < body.len() {
        let rest = &body[here..];
        let Blob {
            kind: held,
            head,
            used,
        } = take_blob(alloc, kind, here, &before, rest)?;
        items.push(Item {
            at: at + here as u64,
            kind: held,
        })?;
        here += used;
        before = head;
    }
    Ok(())
}

// A blob that was taken: what it holds, what its header says, and the number of its bytes.
#[derive(Drop)]
struct Blob {
    kind: ItemKind,
    head: HeadState,
    used: usize,
}

// The blob at the front of the bytes, which stand at this place of the body, after one whose header said `before`.
fn take_blob(
    alloc: Global,
    kind: BlockKind,
    here: usize,
    before: &HeadState,
    bytes: &[u8],
) -> Result<Blob, BodyFault>
    requires holds { HoldsBlobs kind }
    requires here { here + length bytes.now < 2 ^ 63 }
    ensures ok { IfOk result (λ blob. (at : ℕ) → ReadsBlob kind at here before.now bytes.now blob) }
    ensures fault { IfErr result (λ fault. (at : ℕ)
        → IsFault (blob_at kind (record { at = at + here; before = before.now }) bytes.now) at fault) }
    ensures stands { IfErr result (λ fault. StandsWithin (here + length bytes.now) fault) }
{
    let mut state = *before;
    let Some(used) = next_head(kind, &mut state, bytes) else {
        return Err(BodyFault::BadHead { at: here });
    };
    let end = used + state.size as usize;
    let held = held(alloc, kind, &state, here + used, &bytes[used..end])?;
    Ok(Blob {
        kind: held,
        head: state,
        used: end,
    })
}

// Reads the header at the front of the bytes into the state of the blob before it, if a blob of such a block may have it
// and its payload is there, and answers the number of its bytes.
#[inline(always)]
pub(crate) fn next_head(kind: BlockKind, state: &mut HeadState, bytes: &[u8]) -> Option<usize>
    ensures some { IfSome result (λ used. ReadsHead kind state.old bytes.now state.new used) }
    ensures none { IsNone result → (at : ℕ)
        → blob_at kind (record { at = at; before = state.old }) bytes.now ≡ Err (refusal at BadHead) }
{
    let Ok(used) = take_next(bytes, state) else {
        return None;
    };
    if !may_head(kind, state) || bytes.len() - used < state.size as usize {
        return None;
    }
    Some(used)
}

// Whether a blob of such a block may have this header. An event's names its definition.
fn may_head(kind: BlockKind, head: &HeadState) -> bool
    ensures { result ≡ may_head kind head.now }
{
    match kind {
        BlockKind::Event => head.metadata > 0,
        BlockKind::Metadata => true,
        BlockKind::Stack | BlockKind::Point => false,
    }
}

// What a blob with this header holds. Its payload begins at this place of the body.
fn held(
    alloc: Global,
    kind: BlockKind,
    head: &HeadState,
    place: usize,
    payload: &[u8],
) -> Result<ItemKind, BodyFault>
    requires { HoldsBlobs kind }
    ensures ok { IfOk result (λ held. (at : ℕ) → held_at kind head.now at payload.now ≡ Ok held) }
    ensures fault { IfErr result (λ fault. (at : ℕ)
        → IsFault (held_at kind head.now (at + place) payload.now) at fault) }
    ensures stands { IfErr result (λ fault. StandsWithin place fault) }
{
    match kind {
        BlockKind::Event => Ok(event(head, Bytes::new(Vec::from_slice(alloc, payload)?))),
        BlockKind::Metadata => match take_meta(alloc, payload)? {
            TakenMeta::Meta { id, def } => Ok(ItemKind::Meta { id, def }),
            TakenMeta::BadMeta { at: _ } => Err(BodyFault::BadMeta { at: place }),
        },
        BlockKind::Stack | BlockKind::Point => unreachable!(),
    }
}

// The event that a header and a payload tell.
fn event(head: &HeadState, payload: Bytes) -> ItemKind
    ensures { (at : ℕ) → held_at block.Event head.now at payload ≡ Ok result }
{
    ItemKind::Event {
        metadata: head.metadata,
        number: head.number,
        capture: head.capture,
        processor: head.processor,
        thread: head.thread,
        stack: head.stack,
        stamp: head.stamp,
        activity: head.activity,
        related: head.related,
        payload,
    }
}

fn take_stacks(alloc: Global, body: &[u8], at: u64, items: &mut Vec<Item>) -> Result<(), BodyFault>
    requires { at + length body.now < 2 ^ 63 }
    ensures ok { OnOk result (Appends (stack_body_at at body.now) items.old.items items.new.items) }
    ensures fault { IfErr result (λ fault. IsFault (stack_body_at at body.now) at fault) }
    ensures stands { IfErr result (λ fault. StandsWithin (length body.now) fault) }
    ensures err { OnErr result (Keeps items.old.items items.new.items) }
{
    let Some((first, count)) = stack_counts(body) else {
        return Err(BodyFault::BadBlock { at: 0 });
    };
    let mut here = STACKS_PLACE;
    for id in first..first + count {
        let Some(stack) = stack_in(&body[here..]) else {
            return Err(BodyFault::BadBlock { at: 0 });
        };
        let bytes = Bytes::new(Vec::from_slice(alloc, stack)?);
        items.push(Item {
            at: at + here as u64,
            kind: ItemKind::Stack { id, bytes },
        })?;
        here += SHORT_BYTES + stack.len();
    }
    if here < body.len() {
        return Err(BodyFault::BadBlock { at: 0 });
    }
    Ok(())
}

// The first id of a body of stacks, and how many there are.
fn stack_counts(body: &[u8]) -> Option<(u32, u32)>
    ensures some { IfSome result (λ counts. CountsStacks body.now counts.0 counts.1) }
    ensures none { IsNone result → (at : ℕ) → stack_body_at at body.now ≡ Err (refusal at BadBlock) }
{
    let first = take_u32(body)?;
    let count = take_u32(&body[SHORT_BYTES..])?;
    if first > LAST_COUNT || count > LAST_COUNT {
        return None;
    }
    Some((first, count))
}

// The stack at the front of the bytes, after its size.
fn stack_in(bytes: &[u8]) -> Option<&[u8]>
    ensures some { IfSome result (λ stack. ReadsStack bytes.now stack.now) }
    ensures none { IsNone result → (start : ℕ) (place : StackPlace)
        → stack_at start place bytes.now ≡ Err (refusal start BadBlock) }
{
    let size = take_u32(bytes)? as usize;
    let stack = &bytes[SHORT_BYTES..];
    if stack.len() < size {
        return None;
    }
    Some(&stack[..size])
}

fn take_point(alloc: Global, body: &[u8], at: u64, items: &mut Vec<Item>) -> Result<(), BodyFault>
    ensures ok { OnOk result (Appends (point_body_at at body.now) items.old.items items.new.items) }
    ensures fault { IfErr result (λ fault. IsFault (point_body_at at body.now) at fault) }
    ensures stands { IfErr result (λ fault. StandsWithin (length body.now) fault) }
    ensures err { OnErr result (Keeps items.old.items items.new.items) }
{
    let Some((stamp, count)) = point_counts(body) else {
        return Err(BodyFault::BadBlock { at: 0 });
    };
    let threads = take_threads(alloc, count, &body[THREADS_PLACE..])?;
    items.push(Item {
        at,
        kind: ItemKind::Point {
            stamp,
            threads: ThreadNumbers::new(threads),
        },
    })?;
    Ok(())
}

// The stamp of a point, and how many threads it has.
fn point_counts(body: &[u8]) -> Option<(u64, u32)>
    ensures some { IfSome result (λ counts. CountsThreads body.now counts.0 counts.1) }
    ensures none { IsNone result → (at : ℕ) → point_body_at at body.now ≡ Err (refusal at BadBlock) }
{
    let stamp = take_u64(body)?;
    let count = take_u32(&body[LONG_BYTES..])?;
    if count > LAST_COUNT {
        return None;
    }
    Some((stamp, count))
}

// This many threads with their numbers, and nothing after them.
fn take_threads(alloc: Global, count: u32, bytes: &[u8]) -> Result<Vec<(u64, u32)>, BodyFault>
    ensures ok { IfOk result (λ threads. (at : ℕ) → threads_at at count bytes.now ≡ Ok threads.items) }
    ensures fault { IfErr result (λ fault. (at : ℕ) → IsFault (threads_at at count bytes.now) at fault) }
    ensures stands { IfErr result (λ fault. StandsWithin 0 fault) }
{
    let mut threads = Vec::new(alloc);
    let mut here = 0;
    for _ in 0..count {
        let Some(thread) = thread_in(&bytes[here..]) else {
            return Err(BodyFault::BadBlock { at: 0 });
        };
        threads.push(thread)?;
        here += THREAD_BYTES;
    }
    if here < bytes.len() {
        return Err(BodyFault::BadBlock { at: 0 });
    }
    Ok(threads)
}

// The thread at the front of the bytes, and its number.
fn thread_in(bytes: &[u8]) -> Option<(u64, u32)>
    ensures some { IfSome result (λ thread. ReadsThread bytes.now thread) }
    ensures none { IsNone result → (start left : ℕ)
        → thread_at start left bytes.now ≡ Err (refusal start BadBlock) }
{
    let thread = take_u64(bytes)?;
    let number = take_u32(&bytes[LONG_BYTES..])?;
    Some((thread, number))
}
