//! Places with nothing in them.
ghost use Rattle.std.specs.Prelude.{◌≡◌, IfOk, None, replicate};

use std::alloc::{AllocError, Global};

/// This many places with nothing in them.
pub fn empty_places<A: Drop>(alloc: Global, count: u32) -> Result<Vec<Option<A>>, AllocError>
    ensures { IfOk result (λ places. places.items ≡ replicate count None) }
{
    let mut places = Vec::new(alloc);
    for _place in 0..count {
        places.push(None)?;
    }
    Ok(places)
}
