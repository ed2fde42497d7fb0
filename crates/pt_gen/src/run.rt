//! A whole schedule, made on a machine.
ghost use Rattle.std.specs.Prelude.{◌≡◌, ◌≤◌, length, reverse, IfOk};
ghost use Rattle.ep_defs.specs.Session.{standard_info_of};
ghost use Rattle.ep_core.specs.Machine.{Follows};
ghost use Rattle.pt_gen.specs.Schedule.{generated};
ghost use Rattle.pt_gen.specs.declared.limits.TheConstants.{MOST_WRITES};
ghost use Rattle.pt_gen.specs.state.Running.{HasDrafts, Runs};
ghost use Rattle.pt_load.specs.Sample.{sample};

use crate::Gen;
use crate::drafts::{drafts_of, make_write};
use crate::laws::a_schedule_can_be_made;
use crate::rounds::Rounds;
use crate::words::Asked;
use ep_core::{Machine, StepFault};
use ep_defs::standard_info;
use pt_load::laws::sample_events_are_valid;
use pt_load::{Draft, sample_events};
use std::alloc::{AllocError, Global};

/// The machine that has made the whole schedule. Each step is made as soon as it is known, and then it is gone; the steps
/// of a write are made at once.
pub(crate) fn run(alloc: Global, asked: Asked) -> Result<Machine, AllocError>
    requires few { asked.writes ≤ MOST_WRITES }
    ensures { IfOk result (Follows sample (standard_info_of 1 1) (reverse (generated asked.seed asked.writes))) }
{
    a_schedule_can_be_made();
    sample_events_are_valid();
    let rounds = Rounds {
        seed: asked.seed,
        count: asked.writes,
    };
    let mut machine = Machine::new(alloc, sample_events(alloc)?, standard_info(1, 1))?;
    let mut drafts = drafts_of(alloc, rounds)?;
    let mut steps = Gen::new(asked.seed, asked.writes);
    while let Some(step) = steps.next(alloc)? {
        match machine.step(alloc, step) {
            Ok(()) => {}
            Err(StepFault::OutOfMemory) => return Err(AllocError),
            Err(StepFault::Unlawful(_)) => unreachable!(),
        }
        make_writes(&mut machine, &mut drafts, &mut steps, rounds);
    }
    Ok(machine)
}

// Makes the writes that come next, up to another step.
fn make_writes(machine: &mut Machine, drafts: &mut Vec<Draft>, steps: &mut Gen, rounds: Rounds)
    requires few { rounds.count ≤ MOST_WRITES }
    requires runs { Runs rounds.seed rounds.count machine.old steps.old }
    requires drafts { HasDrafts rounds.seed drafts.old.items }
    ensures runs { Runs rounds.seed rounds.count machine.new steps.new }
    ensures fewer { length steps.new ≤ length steps.old }
    ensures drafts { HasDrafts rounds.seed drafts.new.items }
{
    a_schedule_can_be_made();
    while let Some(round) = steps.pass_write(rounds.seed) {
        make_write(machine, drafts, rounds, round);
    }
}
