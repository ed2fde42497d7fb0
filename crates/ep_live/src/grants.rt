//! Where what sessions were granted stands.
ghost use Rattle.std.specs.Prelude.{◌≡◌, IfOk, IfErr};

use ep_guarded::Grant;
use ep_shelf::Shelf;
use std::sync::Wait;

/// Places what a session was granted on a shelf that was made before the run's ties, and gives it for as long as the shelf
/// lasts. Out of memory it comes back. It may wait while another thread stores the memory that it goes to.
pub fn place<'a, R: Wait>(
    rt: &R,
    grants: &'a Shelf<Grant>,
    grant: Grant,
) -> Result<&'a Grant, Grant>
    ensures placed { IfOk result (λ placed. placed.now ≡ grant) }
    ensures back { IfErr result (λ back. back ≡ grant) }
{
    let token = grants.place(rt, grant)?;
    Ok(grants.at(&token))
}
