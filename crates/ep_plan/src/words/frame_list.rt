//! Return addresses.
ghost use Rattle.std.specs.Prelude.{◌≡◌, ◌++◌, IfOk, OnOk};
ghost use Rattle.ep_plan.specs.Words.{frames_in, frames_text};

use super::numbers::{hexadecimal, put_hexadecimal};
use super::split::first_part;
use ep_defs::{Frames, Items};
use std::alloc::{AllocError, Global};

/// Return addresses of 1 to 16 hexadecimal digits, joined by commas, or `-` for none.
pub(crate) fn frames(alloc: Global, word: &[u8]) -> Result<Option<Frames>, AllocError>
    ensures { IfOk result (λ frames. frames ≡ frames_in word.now) }
{
    let mut frames = Vec::new(alloc);
    if word == b"-".as_slice() {
        return Ok(Some(Items::new(frames)));
    }
    let mut rest = Some(word);
    while let Some(text) = rest {
        let (part, behind) = first_part(text, b',');
        let Some(frame) = hexadecimal(part) else {
            return Ok(None);
        };
        frames.push(frame)?;
        rest = behind;
    }
    Ok(Some(Items::new(frames)))
}

/// Appends return addresses in hexadecimal digits, joined by commas, or `-` for none.
pub(crate) fn put_frames(out: &mut Vec<u8>, frames: &[u64]) -> Result<(), AllocError>
    ensures { OnOk result (out.new.items ≡ out.old.items ++ frames_text frames.now) }
{
    let Some((first, others)) = frames.split_first() else {
        return out.extend_from_slice(b"-");
    };
    put_hexadecimal(out, *first)?;
    for frame in others {
        out.extend_from_slice(b",")?;
        put_hexadecimal(out, *frame)?;
    }
    Ok(())
}
