//! Whole writes, in memory that is there.
ghost use Rattle.std.specs.Prelude.{◌≡◌, ◌+◌, ◌^◌, ◌≤◌, ℕ, false, filter, length, IfOk};
ghost use Rattle.ep_core.specs.Machine.{CanWrite, has_failed, steps_of};
ghost use Rattle.pt_gen.specs.Schedule.{gets, sessions, thread_at, write_at};
ghost use Rattle.pt_gen.specs.state.Running.{HasDrafts, Writes};

use crate::limits::{NARROW, THREADS, WIDE};
use crate::rounds::Rounds;
use ep_core::Machine;
use pt_load::{Draft, STORE_OPENED};
use std::alloc::{AllocError, Global};

/// What gives each thread's writes, the first being thread 1.
pub(crate) fn drafts_of(alloc: Global, rounds: Rounds) -> Result<Vec<Draft>, AllocError>
    ensures { IfOk result (λ drafts. HasDrafts rounds.seed drafts.items) }
{
    let plan = rounds.plan();
    let mut drafts = Vec::with_capacity(alloc, THREADS as usize)?;
    for before in 0..THREADS {
        drafts.push(Draft::new(alloc, &plan, before + 1)?)?;
    }
    Ok(drafts)
}

/// Makes all steps of a round's write. It takes no memory of its own.
pub(crate) fn make_write(machine: &mut Machine, drafts: &mut Vec<Draft>, rounds: Rounds, round: u32)
    requires drafts { HasDrafts rounds.seed drafts.old.items }
    requires can { CanWrite (thread_at rounds.seed round) round (write_at rounds.seed round)
        (filter (gets (write_at rounds.seed round)) sessions) machine.old }
    requires working { has_failed machine.old ≡ false }
    requires few { steps_of machine.old + 4 ≤ 2 ^ 63 }
    ensures writes { Writes rounds.seed round machine.old machine.new }
    ensures working { has_failed machine.new ≡ false }
    ensures drafts { HasDrafts rounds.seed drafts.new.items }
{
    let thread = rounds.thread_at(round);
    let write = drafts[thread as usize - 1].nth(rounds.writes_before(round));
    machine.write(thread, u64::from(round), write, getters(write.event));
}

// The sessions that get a round's write of this event.
fn getters(event: u32) -> &'static [u32]
    ensures got { (seed round : ℕ) → (write_at seed round).event ≡ event
        → result.now ≡ filter (gets (write_at seed round)) sessions }
    ensures few { length result.now ≤ 2 }
{
    if event == STORE_OPENED {
        &[WIDE, NARROW]
    } else {
        &[WIDE]
    }
}
