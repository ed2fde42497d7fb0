//! Going over the body of an event block.
ghost use Rattle.std.specs.Prelude.{◌≡◌, ℕ, ◌+◌, ◌<◌, ◌^◌, Err, length, IfSome, IsNone, IfErr, OnOk};
ghost use Rattle.nt_object.specs.declared.object.BlockKind.TheVariants as block;
ghost use Rattle.nt_head.specs.declared.head.HeadState.{HeadState};
ghost use Rattle.nt_blocks.specs.Refusals.{BadHead, blob_at, body_at, refusal};
ghost use Rattle.nt_blocks.specs.Taking.{IsFault, StandsWithin};
ghost use Rattle.nt_names.specs.Told.{AppendsEvents};
ghost use Rattle.nt_names.specs.state.Heads.{SkimsBlob, head_of};

use crate::head::{Head, NOTHING, read_head};
use nt_blocks::{BodyFault, header_size};
use nt_check::EventNames;

/// An event by what it names.
#[derive(Clone, Copy, Debug, PartialEq, Eq, Drop)]
pub struct EventAt {
    /// The offset of its first byte in the stream.
    pub at: u64,
    pub names: EventNames,
}

/// Takes a whole body of events, which stands at this offset of the stream, and appends what they name.
///
/// The fault is that of `nt_blocks::take_body`. After one, the events before it are appended.
pub fn take_names(body: &[u8], at: u64, events: &mut Vec<EventAt>) -> Result<(), BodyFault>
    requires { at + length body.now < 2 ^ 63 }
    ensures ok { OnOk result (AppendsEvents (body_at block.Event at body.now) events.old.items events.new.items) }
    ensures fault { IfErr result (λ fault. IsFault (body_at block.Event at body.now) at fault) }
    ensures stands { IfErr result (λ fault. StandsWithin (length body.now) fault) }
{
    let mut here = header_size(body)?;
    let mut before = NOTHING;
    while here < body.len() {
        let Some(Blob { head, used }) = next_blob(&before, &body[here..]) else {
            return Err(BodyFault::BadHead { at: here });
        };
        events.push(EventAt {
            at: at + here as u64,
            names: head.names,
        })?;
        here += used + head.size as usize;
        before = head;
    }
    Ok(())
}

// What the header of a blob says, and the number of its bytes.
#[derive(Clone, Copy, Drop)]
struct Blob {
    head: Head,
    used: usize,
}

// The header at the front of the bytes, if an event may have it and its payload is there.
#[inline(always)]
fn next_blob(previous: &Head, bytes: &[u8]) -> Option<Blob>
    ensures some { IfSome result (λ blob. SkimsBlob previous.now bytes.now blob.head blob.used) }
    ensures none { IsNone result → (before : HeadState) → head_of before ≡ previous.now → (at : ℕ)
        → blob_at block.Event (record { at = at; before = before }) bytes.now ≡ Err (refusal at BadHead) }
{
    let mut used = 0;
    let head = read_head(bytes, &mut used, previous)?;
    if head.names.metadata == 0 || bytes.len() - used < head.size as usize {
        return None;
    }
    Some(Blob { head, used })
}
