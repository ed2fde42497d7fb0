//! What all threads of a run share.
ghost use Rattle.std.specs.Prelude.{◌≡◌};
ghost use Rattle.pt_writers.specs.Written.{IsRunOf};

use ep_guarded::Program;
use pt_load::Plan;
use std::marker::{Brand, PhantomData};

/// One run of the sample program, by its name. A call picks it where it passes `Brand`.
pub trait SampleRun: Program {
    ghost use Rattle.pt_load.specs.declared.plan.Plan.{Plan as PlanValue};

    // How much is written.
    ghost plan: { PlanValue };
}

impl SampleRun for Brand {
    ghost use Rattle.pt_writers.specs.Written.{no_plan};

    ghost plan = { no_plan };
}

/// What never changes in a run: the runtime, the clock and the gate that its threads pass, and how much they write.
#[derive(Drop)]
pub struct Around<'r, P: SampleRun, R, C, G> {
    pub rt: &'r R,
    pub clock: &'r C,
    pub gate: &'r G,
    pub plan: &'r Plan,
    pub name: PhantomData<P>,
    ghost is_run: { IsRunOf plan.now P.rows P.events P.writes },
    ghost plan_is: { plan.now ≡ P.plan },
}
