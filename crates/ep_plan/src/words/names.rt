//! Names.
ghost use Rattle.std.specs.Prelude.{◌≡◌, ◌++◌, IsTrue, IfOk, OnOk};
ghost use Rattle.ep_plan.specs.Words.{is_name, is_name_byte, provider_in, event_name_in};

use ep_defs::{Items, Units};
use std::alloc::{AllocError, Global};

/// The name of a provider: one or more ASCII characters from `!` to `~`, none of them a colon.
pub fn provider(alloc: Global, word: &[u8]) -> Result<Option<Units>, AllocError>
    ensures { IfOk result (λ name. name ≡ provider_in word.now) }
{
    if word.is_empty() || !word.iter().all(|byte| is_name_byte(*byte)) {
        return Ok(None);
    }
    let units = word.iter().map(|byte| u16::from(*byte)).collect(alloc)?;
    Ok(Some(Items::new(units)))
}

fn is_name_byte(byte: u8) -> bool
    ensures { result ≡ is_name_byte byte }
{
    byte.is_ascii_graphic() && byte != b':'
}

/// The name of an event: such a name, or `-` for the empty one.
pub(crate) fn event_name(alloc: Global, word: &[u8]) -> Result<Option<Units>, AllocError>
    ensures { IfOk result (λ name. name ≡ event_name_in word.now) }
{
    if word == b"-".as_slice() {
        return Ok(Some(Items::new(Vec::new(alloc))));
    }
    provider(alloc, word)
}

/// Appends a name that `provider` can read.
pub(crate) fn put_name(out: &mut Vec<u8>, name: &[u16]) -> Result<(), AllocError>
    requires { IsTrue (is_name name.now) }
    ensures { OnOk result (out.new.items ≡ out.old.items ++ name.now) }
{
    for unit in name {
        out.push(*unit as u8)?;
    }
    Ok(())
}
