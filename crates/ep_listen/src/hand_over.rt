//! How records are handed to a callback.
ghost use Rattle.std.specs.Prelude.{◌≡◌, ◌^◌, ◌<◌, length, IfOk};
ghost use Rattle.ep_chunk.specs.Record.{Record};
ghost use Rattle.ep_chunk.specs.Places.{Tells};
ghost use Rattle.ep_slot.specs.Chain.{records_of};
ghost use Rattle.ep_listen.specs.Heard.{event_of, heard_in, heard_of};
ghost use Rattle.ep_listen.specs.Listening.{IsHanded};

use crate::heard::{Callback, Heard};
use ep_chunk::{Chain, Chunk, RecOut};
use std::alloc::{AllocError, Global};

// A record as it is heard.
fn event_of<'a>(rec: &RecOut<'a>) -> Heard<'a>
    ensures { (r : Record) → Tells r rec.now → event_of result ≡ heard_of r }
{
    Heard {
        event: rec.event,
        number: rec.number,
        thread: rec.thread,
        stamp: rec.stamp,
        activity: rec.activity,
        related: rec.related,
        frames: rec.frames,
        payload: rec.payload,
    }
}

// Hands a chunk's records over. Answers how many there were.
fn hand_chunk<C: Callback>(
    alloc: Global,
    callback: &mut C,
    chunk: &Chunk,
) -> Result<u32, AllocError>
    requires few { length chunk.now < 2 ^ 32 }
    ensures handed { IsHanded C.has_heard (heard_in chunk.now) callback.old callback.new result }
    ensures counted { IfOk result (λ count. count ≡ length chunk.now) }
{
    let mut place = 0;
    let mut count = 0;
    while let Some(rec) = chunk.at(place) {
        callback.heard(alloc, &event_of(&rec))?;
        place = rec.next;
        count += 1;
    }
    Ok(count)
}

/// Hands a chain's records over, chunk by chunk, as they stand there. Answers how many there were. After want of memory
/// it hands over nothing more.
pub(crate) fn hand_chain<C: Callback>(
    alloc: Global,
    callback: &mut C,
    chain: &Chain,
) -> Result<u32, AllocError>
    requires few { length (records_of chain.now) < 2 ^ 32 }
    ensures handed { IsHanded C.has_heard (heard_in (records_of chain.now)) callback.old callback.new result }
    ensures counted { IfOk result (λ count. count ≡ length (records_of chain.now)) }
{
    let mut count = 0;
    for place in 0..chain.count() {
        let Some(chunk) = chain.chunk(place) else {
            unreachable!();
        };
        count += hand_chunk(alloc, callback, chunk)?;
    }
    Ok(count)
}
