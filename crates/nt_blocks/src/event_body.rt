//! A body of events that keeps its bytes.
ghost use Rattle.std.specs.Prelude.{◌≡◌, ◌+◌, ◌<◌, ◌≤◌, ◌^◌, All, Ok, [], length, map, get_or, IfErr, OnOk, OnErr};

use crate::place::{EventPlace, place_events};
use crate::take::BodyFault;
use nt_head::HeadState;
use std::alloc::Global;

/// The events of a body, with the body's bytes, in which their payloads stand: no event has memory of its own. The memory
/// of one body serves for the next.
#[derive(Drop)]
pub struct EventBody {
    bytes: Vec<u8>,
    events: Vec<EventPlace>,
    ghost within: { All (λ event. event.payload + event.head.size ≤ length bytes.items) events.items },
}

/// One event of a body.
#[derive(Clone, Copy, Drop)]
pub struct BodyEvent<'a> {
    /// The offset of its first byte in the stream.
    pub at: u64,
    pub head: &'a HeadState,
    pub payload: &'a [u8],
}

impl EventBody {
    ghost use Rattle.ep_defs.specs.declared.item.Item.{Item};
    ghost use Rattle.nt_object.specs.declared.object.BlockKind.TheVariants as block;
    ghost use Rattle.nt_blocks.specs.Placed.{event_of, items_in};
    ghost use Rattle.nt_blocks.specs.Refusals.{body_at};
    ghost use Rattle.nt_blocks.specs.Taking.{IsFault, StandsWithin};

    /// No events. It takes no memory.
    pub fn new(alloc: Global) -> EventBody
        ensures { items_in result ≡ [] }
    {
        EventBody {
            bytes: Vec::new(alloc),
            events: Vec::new(alloc),
        }
    }

    /// No events from here on. The room is kept.
    pub fn clear(&mut self)
        ensures { items_in self.new ≡ [] }
    {
        self.events.clear();
        self.bytes.clear();
    }

    /// Takes a whole body of events, which stands at this offset of the stream, in place of the one before.
    ///
    /// The fault is that of `take_body`. After one there are no events.
    pub fn take(&mut self, body: &[u8], at: u64) -> Result<(), BodyFault>
        requires { at + length body.now < 2 ^ 63 }
        ensures ok { OnOk result (body_at block.Event at body.now ≡ Ok (items_in self.new)) }
        ensures fault { IfErr result (λ fault. IsFault (body_at block.Event at body.now) at fault) }
        ensures stands { IfErr result (λ fault. StandsWithin (length body.now) fault) }
        ensures err { OnErr result (items_in self.new ≡ []) }
    {
        self.events.clear();
        self.bytes.clear();
        self.bytes.extend_from_slice(body)?;
        let placed = place_events(body, at, &mut self.events);
        if placed.is_err() {
            self.events.clear();
        }
        placed
    }

    /// How many events there are.
    pub fn len(&self) -> usize
        ensures { result ≡ length (items_in self.now) }
    {
        self.events.len()
    }

    /// The event with this index.
    #[inline(always)]
    pub fn event(&self, index: usize) -> BodyEvent<'_>
        requires { index < length (items_in self.now) }
        ensures { (other : Item) → get_or (items_in self.now) index other
            ≡ record { at = result.at; kind = event_of result.head.now result.payload.now } }
    {
        let event = &self.events[index];
        let end = event.payload + event.head.size as usize;
        BodyEvent {
            at: event.at,
            head: &event.head,
            payload: &self.bytes[event.payload..end],
        }
    }
}
