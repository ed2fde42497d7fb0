//! What the lines of a schedule have come to.
ghost use Rattle.std.specs.Prelude.{◌≡◌, ◌≤◌, ◌<◌, ◌+◌, ◌^◌, ℕ, true, false, List, [], ◌∷◌, length, IsTrue, IfOk, IfErr, IfSome, IfNone, OnOk, OnErr};
ghost use Rattle.std.specs.List.{list_all};
ghost use Rattle.ep_defs.specs.Event.{is_valid_event};
ghost use Rattle.ep_defs.specs.Definitions.{AreDistinct};
ghost use Rattle.ep_defs.specs.declared.limits.TheConstants.{EVENTS};
ghost use Rattle.ep_core.specs.Machine.{Follows, IsStepped, steps_of};
ghost use Rattle.ep_core.specs.declared.machine.StepFault.TheVariants.{Unlawful};
ghost use Rattle.ep_rundown.specs.Rundown.{lacks_rundown};
ghost use Rattle.ep_model.specs.Lawful.{objection_to};
ghost use Rattle.ep_plan.specs.Lines.{IsLine, step_of};
ghost use Rattle.ep_defs.specs.declared.event.EventDef.{EventDef};
ghost use Rattle.ep_defs.specs.Session.{standard_info_of};
ghost use Rattle.ep_model.specs.declared.step.Step.{Step};
ghost use Rattle.ep_model.specs.declared.step.Unlawful.{Unlawful as Why};
ghost use Rattle.ep_model.specs.History.{Past, event_at};
ghost use Rattle.ep_plan.specs.declared.line.Line.{Line};
ghost use Rattle.ep_plan.specs.declared.line.Line.TheVariants.{Event, Step as StepLine};
ghost use Rattle.pt_replay.specs.declared.errors.Reason.TheVariants.{Step as StepReason};
ghost use Rattle.pt_replay.specs.declared.errors.Refusal.{Refusal};
ghost use Rattle.pt_replay.specs.declared.schedule.Fault.TheVariants.{Refused, OutOfMemory};
ghost use Rattle.pt_replay.specs.Schedule.{definitions_of, past_of, has_stepped, CanBeMade, Takes, Says, Refuses};
ghost use Rattle.pt_replay.specs.Machines.{IsMachineOf, IsUnlawful};

use crate::errors::{Reason, Refusal};
use ep_core::{Machine, StepFault};
use ep_defs::{EventDef, copies, standard_info};
use ep_model::Step;
use ep_plan::{Line, LineFault, ShortStep, a_line_means_one_thing, read_line, read_short};
use std::alloc::{AllocError, AllocFailed, Global};

/// Why a line was not taken.
#[derive(Clone, Copy, Debug)]
pub(crate) enum Fault {
    Refused(Refusal),
    OutOfMemory,
}

impl From<AllocError> for Fault {
    ghost from_gives = { λ _ fault. fault ≡ OutOfMemory };

    fn from(_error: AllocError) -> Fault {
        Fault::OutOfMemory
    }
}

impl<T: Drop> From<AllocFailed<T>> for Fault {
    ghost from_gives = { λ _ fault. fault ≡ OutOfMemory };

    fn from(_error: AllocFailed<T>) -> Fault {
        Fault::OutOfMemory
    }
}

/// The lines of a schedule so far.
#[derive(Drop)]
pub(crate) struct Schedule {
    events: Vec<EventDef>,
    /// From the first step on.
    machine: Option<Machine>,
    lines: u64,
}

impl Schedule {
    ghost use Rattle.ep_core.specs.Streams.{IsStreamOf};
    ghost use Rattle.ep_model.specs.History.{is_finished};
    ghost use Rattle.pt_replay.specs.Reading.{HasTaken, lines_in};

    /// An empty schedule.
    pub(crate) fn new(alloc: Global) -> Schedule
        ensures fresh { HasTaken [] result }
        ensures none { lines_in result ≡ 0 }
    {
        Schedule {
            events: Vec::new(alloc),
            machine: None,
            lines: 0,
        }
    }

    /// How many lines came.
    pub(crate) fn lines(&self) -> u64
        ensures { result ≡ lines_in self.now }
    {
        self.lines
    }

    /// Takes the next line, without its line feed. After an error no line may follow.
    pub(crate) fn take_line(&mut self, alloc: Global, text: &[u8]) -> Result<(), Fault>
        requires stands { (lines : List Line) × HasTaken lines self.old }
        requires few { lines_in self.old < 2 ^ 63 }
        ensures taken { (lines : List Line) → HasTaken lines self.old
            → OnOk result ((line : Line) × Takes lines text.now line × HasTaken (line ∷ lines) self.new) }
        ensures refused { (lines : List Line) (refusal : Refusal) → HasTaken lines self.old
            → result ≡ Err (Refused refusal) → Refuses lines text.now refusal }
        ensures counted { lines_in self.new ≤ lines_in self.old + 1 }
    {
        if let Some(machine) = &mut self.machine {
            if let Some(step) = read_short(text) {
                return match make_short(alloc, machine, step) {
                    Ok(()) => {
                        self.lines += 1;
                        Ok(())
                    }
                    Err(fault) => Err(fault_at(self.lines + 1, fault)),
                };
            }
        }
        self.take_other(alloc, text)
    }

    // The same of any line. It stands out of line, since most lines of a long schedule show or end a write, and need none of
    // what it keeps on the stack.
    #[inline(never)]
    fn take_other(&mut self, alloc: Global, text: &[u8]) -> Result<(), Fault>
        requires stands { (lines : List Line) × HasTaken lines self.old }
        requires few { lines_in self.old < 2 ^ 63 }
        ensures taken { (lines : List Line) → HasTaken lines self.old
            → OnOk result ((line : Line) × Takes lines text.now line × HasTaken (line ∷ lines) self.new) }
        ensures refused { (lines : List Line) (refusal : Refusal) → HasTaken lines self.old
            → result ≡ Err (Refused refusal) → Refuses lines text.now refusal }
        ensures counted { lines_in self.new ≤ lines_in self.old + 1 }
    {
        let number = self.lines + 1;
        match read_line(alloc, text, number, &self.events, self.machine.is_some()) {
            Ok(Line::Blank) => {
                self.lines = number;
                Ok(())
            }
            Ok(Line::Event { def, .. }) => self.take_event(def),
            Ok(Line::Step(step)) => self.take_step(alloc, step),
            Err(LineFault::Bad { line, column, kind }) => Err(Fault::Refused(Refusal {
                line,
                column,
                reason: Reason::Line(kind),
            })),
            Err(LineFault::OutOfMemory) => Err(Fault::OutOfMemory),
        }
    }

    // Takes the line of a definition.
    fn take_event(&mut self, def: EventDef) -> Result<(), Fault>
        requires few { lines_in self.old < 2 ^ 63 }
        ensures taken { (lines : List Line) (text : List ℕ) (index : ℕ) → HasTaken lines self.old
            → IsLine (definitions_of lines) (has_stepped (past_of lines)) text (Event index def)
            → OnOk result (HasTaken (Event index def ∷ lines) self.new) }
        ensures memory { OnErr result (result ≡ Err OutOfMemory) }
        ensures counted { lines_in self.new ≤ lines_in self.old + 1 }
    {
        a_line_means_one_thing();
        self.events.push(def)?;
        self.lines += 1;
        Ok(())
    }

    // Makes the step of a line.
    fn take_step(&mut self, alloc: Global, step: Step) -> Result<(), Fault>
        requires stands { (lines : List Line) × HasTaken lines self.old }
        requires few { lines_in self.old < 2 ^ 63 }
        ensures taken { (lines : List Line) → HasTaken lines self.old
            → OnOk result (CanBeMade lines (StepLine step) × HasTaken (StepLine step ∷ lines) self.new) }
        ensures refused { (lines : List Line) (refusal : Refusal) (text : List ℕ)
            → HasTaken lines self.old → result ≡ Err (Refused refusal)
            → Says lines text (StepLine step) → Refuses lines text refusal }
        ensures counted { lines_in self.new ≤ lines_in self.old + 1 }
    {
        make(alloc, &mut self.machine, &self.events, step, self.lines)?;
        self.lines += 1;
        Ok(())
    }

    /// The stream of a session, if the steps have finished it.
    pub(crate) fn stream(&self, session: u32) -> Option<&[u8]>
        ensures some { (lines : List Line) → HasTaken lines self.now
            → IfSome result (λ stream. (is_finished session (past_of lines) ≡ true)
            × IsStreamOf (definitions_of lines) (standard_info_of 1 1) session (past_of lines) stream.now) }
        ensures none { (lines : List Line) → HasTaken lines self.now
            → IfNone result (is_finished session (past_of lines) ≡ false) }
    {
        match &self.machine {
            Some(machine) => machine.stream(session),
            None => None,
        }
    }
}

// Makes a step after this many lines, on a new machine where there is none.
fn make(
    alloc: Global,
    machine: &mut Option<Machine>,
    events: &[EventDef],
    step: Step,
    lines: u64,
) -> Result<(), Fault>
    requires stands { (past : Past) × IsMachineOf events.now past lines machine.old }
    requires count { lines < 2 ^ 63 }
    requires few { length events.now ≤ EVENTS }
    requires valid { IsTrue (list_all is_valid_event events.now) }
    requires distinct { AreDistinct (event_at events.now) }
    requires lacks { IsTrue (lacks_rundown events.now) }
    ensures made { (past : Past) → IsMachineOf events.now past lines machine.old
        → OnOk result ((objection_to events.now past step ≡ None)
        × IsMachineOf events.now (step ∷ past) (lines + 1) machine.new) }
    ensures refused { (past : Past) (refusal : Refusal) → IsMachineOf events.now past lines machine.old
        → result ≡ Err (Refused refusal)
        → IsUnlawful events.now past step (lines + 1) refusal }
{
    if let Some(machine) = machine {
        return make_on(alloc, machine, step, lines + 1);
    }
    make_first(alloc, machine, events, step, lines + 1)
}

// Makes the first step, that of the line with this number, on a new machine.
#[inline(never)]
fn make_first(
    alloc: Global,
    machine: &mut Option<Machine>,
    events: &[EventDef],
    step: Step,
    number: u64,
) -> Result<(), Fault>
    requires count { 0 < number }
    requires few { length events.now ≤ EVENTS }
    requires valid { IsTrue (list_all is_valid_event events.now) }
    requires distinct { AreDistinct (event_at events.now) }
    requires lacks { IsTrue (lacks_rundown events.now) }
    ensures made { OnOk result ((objection_to events.now [] step ≡ None)
        × IsMachineOf events.now (step ∷ []) number machine.new) }
    ensures refused { (refusal : Refusal) → result ≡ Err (Refused refusal)
        → IsUnlawful events.now [] step number refusal }
{
    let mut fresh = new_machine(alloc, events)?;
    make_on(alloc, &mut fresh, step, number)?;
    *machine = Some(fresh);
    Ok(())
}

// A machine that has made no step.
fn new_machine(alloc: Global, events: &[EventDef]) -> Result<Machine, Fault>
    requires few { length events.now ≤ EVENTS }
    requires valid { IsTrue (list_all is_valid_event events.now) }
    requires distinct { AreDistinct (event_at events.now) }
    requires lacks { IsTrue (lacks_rundown events.now) }
    ensures fresh { IfOk result (λ machine. Follows events.now (standard_info_of 1 1) [] machine) }
    ensures counted { IfOk result (λ machine. steps_of machine ≡ 0) }
    ensures memory { IfErr result (λ fault. fault ≡ OutOfMemory) }
{
    let events = copies(alloc, events)?;
    let machine = Machine::new(alloc, events, standard_info(1, 1))?;
    Ok(machine)
}

// Makes a step of the line with this number. It stands out of line, since the machine's step stands in line.
#[inline(never)]
fn make_on(alloc: Global, machine: &mut Machine, step: Step, number: u64) -> Result<(), Fault>
    requires few { steps_of machine.old < 2 ^ 63 }
    ensures made { (events : List EventDef) (past : Past)
        → Follows events (standard_info_of 1 1) past machine.old
        → OnOk result ((objection_to events past step ≡ None)
        × Follows events (standard_info_of 1 1) (step ∷ past) machine.new) }
    ensures refused { (events : List EventDef) (past : Past) (refusal : Refusal)
        → Follows events (standard_info_of 1 1) past machine.old
        → result ≡ Err (Refused refusal) → IsUnlawful events past step number refusal }
    ensures counted { OnOk result (steps_of machine.new ≡ steps_of machine.old + 1) }
{
    match machine.step(alloc, step) {
        Ok(()) => Ok(()),
        Err(fault) => Err(fault_at(number, fault)),
    }
}

// Makes a step that was read by its numbers alone.
#[inline(always)]
fn make_short(alloc: Global, machine: &mut Machine, step: ShortStep) -> Result<(), StepFault>
    requires { steps_of machine.old < 2 ^ 63 }
    ensures { IsStepped (step_of step) machine.old machine.new result }
{
    match step {
        ShortStep::Show { thread, session } => machine.show(alloc, thread, session),
        ShortStep::End { thread } => machine.end(alloc, thread),
    }
}

// Why the line with this number is not taken, whose step was not made. It stands out of line, since it is needed once.
#[inline(never)]
fn fault_at(number: u64, fault: StepFault) -> Fault
    ensures { (refusal : Refusal) → result ≡ Refused refusal
        → (why : Why) × (fault ≡ Unlawful why)
        × (refusal ≡ record { line = number; column = 1; reason = StepReason why.kind }) }
{
    match fault {
        StepFault::Unlawful(why) => Fault::Refused(Refusal {
            line: number,
            column: 1,
            reason: Reason::Step(why.kind),
        }),
        StepFault::OutOfMemory => Fault::OutOfMemory,
    }
}
