//! The slot of a run's one session.
ghost use Rattle.std.specs.Prelude.{◌≡◌, ◌*◌, IfOk, vec_len};
ghost use Rattle.ep_defs.specs.declared.limits.TheConstants.{SESSIONS};
ghost use Rattle.ep_live.specs.Made.{AreHandTies};

use ep_guarded::{Agreed, Program};
use ep_live::{Free, free_slots};
use ep_tie::Right;
use std::alloc::{AllocError, Global};

/// The first slot of a run that has one session, of whose hands the halves are these, by the buffers' numbers.
pub fn first_slot<'a, P: Program>(
    alloc: Global,
    hands: Vec<Right<P, Agreed<'a>>>,
) -> Result<Free<'a, P>, AllocError>
    requires count { vec_len hands ≡ P.rows * SESSIONS }
    requires hands { AreHandTies P.rows hands.items }
    ensures { IfOk result (λ free. free ≡ 0) }
{
    let mut slots = free_slots(alloc, hands)?;
    Ok(slots.swap_remove(0))
}
