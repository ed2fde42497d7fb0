//! Laws of the definitions: what a client puts is read as what it asked for.
ghost use Rattle.std.specs.Prelude.{◌≡◌, ℕ, ◌^◌, ◌<◌, List, [], Ok, IsTrue};
ghost use Rattle.std.specs.Int.{w64};
ghost use Rattle.pt_num.specs.Numbers.{fixed};
ghost use Rattle.ep_defs.specs.declared.session.Rule.{Rule};
ghost use Rattle.ipc_body.specs.declared.request.Request.TheVariants as request;
ghost use Rattle.ipc_body.specs.Asked.{can_collect, SaysWhatIsAsked};
ghost use Rattle.ipc_body.specs.Request.{request_of};

use crate::commands::{EVENT_PIPE, PROCESS, PROCESS_INFO, STOP_TRACING};
use pt_num::what_is_put_is_taken;

/// A request that is put is read as the same request: a session with its rules and its budget, a stop with its id, and
/// the request for what a process says of itself.
pub fn what_is_put_is_read()
    ensures collect { (megabytes : ℕ) (rules : List Rule) → IsTrue (can_collect megabytes rules)
        → SaysWhatIsAsked megabytes rules }
    ensures stop { (id : ℕ) → id < 2 ^ 64
        → request_of EVENT_PIPE STOP_TRACING (fixed w64 id) ≡ Ok (request.Stop id) }
    ensures info { request_of PROCESS PROCESS_INFO [] ≡ Ok request.Info }
{
    what_is_put_is_taken();
}
