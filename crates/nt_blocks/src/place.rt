//! Where the events of a body stand.
ghost use Rattle.std.specs.Prelude.{◌≡◌, ◌+◌, ◌<◌, ◌^◌, [], length, IfErr, OnOk};
ghost use Rattle.nt_object.specs.declared.object.BlockKind.TheVariants as block;
ghost use Rattle.nt_blocks.specs.Refusals.{body_at};
ghost use Rattle.nt_blocks.specs.Taking.{IsFault, StandsWithin};
ghost use Rattle.nt_blocks.specs.state.Places.{Places};

use crate::take::{BodyFault, header_size, next_head};
use nt_head::HeadState;
use nt_object::BlockKind;

/// An event of a body: what its header says, and where it stands.
#[derive(Clone, Copy, Debug, PartialEq, Eq, Drop)]
pub struct EventPlace {
    /// The offset of its first byte in the stream.
    pub at: u64,
    pub head: HeadState,
    /// Where its payload, of as many bytes as the header says, begins in the body.
    pub payload: usize,
}

/// Where the events of a whole body stand, which begins at this offset of the stream.
///
/// The fault is that of `take_body`. After one, the events before it are there.
pub fn place_events(body: &[u8], at: u64, events: &mut Vec<EventPlace>) -> Result<(), BodyFault>
    requires at { at + length body.now < 2 ^ 63 }
    requires none { events.old.items ≡ [] }
    ensures ok { OnOk result (Places at body.now events.new.items) }
    ensures fault { IfErr result (λ fault. IsFault (body_at block.Event at body.now) at fault) }
    ensures stands { IfErr result (λ fault. StandsWithin (length body.now) fault) }
{
    let mut here = header_size(body)?;
    let mut head = HeadState::zero();
    while here < body.len() {
        let Some(used) = next_head(BlockKind::Event, &mut head, &body[here..]) else {
            return Err(BodyFault::BadHead { at: here });
        };
        // The room comes first, so that no answer carries an event that could not be put.
        events.reserve(1)?;
        events.push_reserved(EventPlace {
            at: at + here as u64,
            head,
            payload: here + used,
        });
        here += used + head.size as usize;
    }
    Ok(())
}
