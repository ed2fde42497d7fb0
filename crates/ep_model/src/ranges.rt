//! A law: what the types of the code say of each step. It reads the numbers and does nothing.
ghost use Rattle.ep_model.specs.Ranges.{StepFits};

use crate::step::Step;
use ep_defs::ranges::{config_fits, write_fits};

/// The numbers of a step fit their types.
pub fn step_fits(step: &Step)
    ensures { StepFits step.now }
{
    match step {
        Step::Begin {
            thread,
            stamp,
            write,
        } => {
            let _thread = *thread;
            let _stamp = *stamp;
            write_fits(write);
        }
        Step::Enter { thread } | Step::Leave { thread } | Step::End { thread } => {
            let _thread = *thread;
        }
        Step::Open { session, thread }
        | Step::Steal { session, thread }
        | Step::Close { session, thread }
        | Step::Show { thread, session } => {
            let _session = *session;
            let _thread = *thread;
        }
        Step::Accept { session, config } => {
            let _session = *session;
            config_fits(config);
        }
        Step::Give { session } => {
            let _session = *session;
        }
        Step::Point { session, stamp } | Step::Finish { session, stamp } => {
            let _session = *session;
            let _stamp = *stamp;
        }
    }
}
