//! The machine: what it keeps, and the making of steps.
ghost use Rattle.std.specs.Prelude.{◌≡◌, ◌≤◌, ◌<◌, ◌+◌, ◌-◌, ◌^◌, ◌++◌, ℕ, true, false, List, [], ◌∷◌, length, reverse, take, None, Some, Err, IsTrue, IfOk, IfSome, IfNone, OnOk, OnErr};
ghost use Rattle.std.specs.List.{list_all};
ghost use Rattle.ep_defs.specs.declared.event.EventDef.{EventDef};
ghost use Rattle.ep_defs.specs.declared.session.TraceInfo.{TraceInfo};
ghost use Rattle.ep_model.specs.History.{Past};
ghost use Rattle.ep_defs.specs.Event.{is_valid_event};
ghost use Rattle.ep_defs.specs.Definitions.{AreDistinct, definition_at};
ghost use Rattle.ep_defs.specs.declared.limits.TheConstants.{EVENTS};
ghost use Rattle.ep_rundown.specs.Rundown.{lacks_rundown};
ghost use Rattle.ep_tables.specs.declared.judged.Judged.TheVariants.{Finish};
ghost use Rattle.ep_core.specs.state.Works.{IsNext, Makes, MakesWith, EndedFollowOn, EndedFollowOnWith, Standing};

use crate::ended::Ended;
use crate::whole::make_whole;
use crate::work::Work;
use ep_defs::{EventDef, Marks, TraceInfo, Write};
use ep_model::laws::finished_sessions_are_faithful;
use ep_model::{Step, Unlawful};
use ep_stream_laws::a_finished_session_stays;
use ep_tables::{Judged, OfSession};
use ep_told::{the_program_has_no_thread_0, what_is_told_is_a_session_s_own};
use nt_laws::{a_faithful_stream_is_found, a_stream_with_a_rundown_is_faithful};
use std::alloc::{AllocError, Global};
use std::collections::BTreeMap;

/// Why the machine did not make a step.
#[derive(Clone, Copy, Debug)]
pub enum StepFault {
    /// The step can't be made after those before it.
    Unlawful(Unlawful),
    OutOfMemory,
}

/// What a schedule has come to: threads, sessions, and the streams of those that were finished.
#[derive(Drop)]
pub struct Machine {
    work: Work,
    info: TraceInfo,
    ended: BTreeMap<u32, Ended>,
    steps: u64,
    failed: bool,
    // Some lawful steps led here.
    ghost stands: { failed ≡ false → ∥ Standing info work ∥₁ },
}

impl Machine {
    ghost use Rattle.nt_write.specs.Canonical.{IsCanonical};
    ghost use Rattle.ep_model.specs.declared.step.Step.{Step};
    ghost use Rattle.ep_model.specs.declared.step.Step.TheVariants.{Show, End};
    ghost use Rattle.ep_model.specs.declared.step.Unlawful.{Unlawful};
    ghost use Rattle.ep_model.specs.History.{is_finished};
    ghost use Rattle.ep_model.specs.Lawful.{objection_to, first_unlawful};
    ghost use Rattle.ep_told.specs.Told.{told_entries};
    ghost use Rattle.ep_model.specs.Marks.{marks_of};
    ghost use Rattle.ep_model.specs.Only.{only};
    ghost use Rattle.ep_core.specs.declared.machine.StepFault.TheVariants.{Unlawful as Refused, OutOfMemory};
    ghost use Rattle.ep_core.specs.Machine.{CanWrite, Follows, IsStepped, steps_of, has_failed};
    ghost use Rattle.ep_core.specs.Writes.{with_write};
    ghost use Rattle.ep_model.specs.Lawful.{IsLawful};
    ghost use Rattle.ep_core.specs.Streams.{IsStreamOf};

    /// A machine that has made no step. Its events are numbered from 1 in the order of their definitions, of which there
    /// are at most `limits::EVENTS`, all valid, no two the same and none that of the rundown.
    pub fn new(alloc: Global, events: Vec<EventDef>, info: TraceInfo) -> Result<Machine, AllocError>
        requires few { length events.items ≤ EVENTS }
        requires valid { IsTrue (list_all is_valid_event events.items) }
        requires distinct { AreDistinct (definition_at events.items) }
        requires lacks { IsTrue (lacks_rundown events.items) }
        ensures fresh { IfOk result (λ machine. Follows events.items info [] machine) }
        ensures counted { IfOk result (λ machine. steps_of machine ≡ 0) }
        ensures working { IfOk result (λ machine. has_failed machine ≡ false) }
    {
        Ok(Machine {
            work: Work::new(alloc, events)?,
            info,
            ended: BTreeMap::new(alloc),
            steps: 0,
            failed: false,
        })
    }

    /// Makes one step, or says why it can't be made and changes nothing. A machine that found no memory answers so from
    /// then on. It takes fewer than 2^63 steps in all.
    // It stands in line, so that in `show` and `end` nothing is left of other steps.
    #[inline(always)]
    pub fn step(&mut self, alloc: Global, step: Step) -> Result<(), StepFault>
        requires few { steps_of self.old < 2 ^ 63 }

        ensures made { (events : List EventDef) (info : TraceInfo) (past : Past)
            → Follows events info past self.old
            → OnOk result ((objection_to events past step ≡ None) × Follows events info (step ∷ past) self.new) }
        ensures unlawful { (events : List EventDef) (info : TraceInfo) (past : Past) (why : Unlawful) → Follows events info past self.old
            → result ≡ Err (Refused why) → (objection_to events past step ≡ Some why.kind)
            × (why.step ≡ length past + 1) }
        ensures unchanged { (why : Unlawful) → result ≡ Err (Refused why) → self.new ≡ self.old }
        ensures failed { result ≡ Err OutOfMemory → has_failed self.new ≡ true }
        ensures stays { has_failed self.old ≡ true → (result ≡ Err OutOfMemory)
            × (self.new ≡ self.old) }
        ensures working { OnOk result (has_failed self.new ≡ false) }

        // Where it stands is known after every answer.
        ensures counted { OnOk result (steps_of self.new ≡ steps_of self.old + 1) }
        ensures numbered { (why : Unlawful) → result ≡ Err (Refused why)
            → why.step ≡ steps_of self.old + 1 }
        ensures uncounted { OnErr result (steps_of self.new ≡ steps_of self.old) }
    {
        if self.failed {
            return Err(StepFault::OutOfMemory);
        }
        let judged = match self.work.tables.judge(step) {
            Ok(judged) => judged,
            Err(kind) => {
                let step = self.steps + 1;
                return Err(StepFault::Unlawful(Unlawful { step, kind }));
            }
        };
        if make(&mut self.work, &mut self.ended, alloc, &self.info, judged).is_err() {
            self.failed = true;
            return Err(StepFault::OutOfMemory);
        }
        self.steps += 1;
        Ok(())
    }

    /// Makes the step `Show` with these numbers, as `step` does. No step of full size is handed on.
    #[inline(always)]
    pub fn show(&mut self, alloc: Global, thread: u32, session: u32) -> Result<(), StepFault>
        requires { steps_of self.old < 2 ^ 63 }
        ensures { IsStepped (Show thread session) self.old self.new result }
    {
        self.step(alloc, Step::Show { thread, session })
    }

    /// The same of the step `End`.
    #[inline(always)]
    pub fn end(&mut self, alloc: Global, thread: u32) -> Result<(), StepFault>
        requires { steps_of self.old < 2 ^ 63 }
        ensures { IsStepped (End thread) self.old self.new result }
    {
        self.step(alloc, Step::End { thread })
    }

    /// Makes steps up to the first that can't be made.
    pub fn run(&mut self, alloc: Global, steps: Vec<Step>) -> Result<(), StepFault>
        requires few { steps_of self.old + length steps.items ≤ 2 ^ 63 }

        ensures made { (events : List EventDef) (info : TraceInfo) (past : Past)
            → Follows events info past self.old
            → OnOk result ((first_unlawful events (length past + 1) past steps.items ≡ None) × Follows events info (reverse steps.items ++ past) self.new) }
        ensures unlawful { (events : List EventDef) (info : TraceInfo) (past : Past) (why : Unlawful) → Follows events info past self.old
            → result ≡ Err (Refused why) → first_unlawful events (length past + 1) past steps.items ≡ Some why }
        ensures until { (events : List EventDef) (info : TraceInfo) (past : Past) (why : Unlawful) → Follows events info past self.old
            → result ≡ Err (Refused why)
            → Follows events info (reverse (take (why.step - length past - 1) steps.items) ++ past) self.new }
        ensures failed { result ≡ Err OutOfMemory → has_failed self.new ≡ true }
        ensures stays { has_failed self.old ≡ true → (result ≡ Err OutOfMemory)
            × (self.new ≡ self.old) }
        ensures working { OnOk result (has_failed self.new ≡ false) }
        ensures refusing { (why : Unlawful) → result ≡ Err (Refused why)
            → has_failed self.new ≡ false }

        // Where it stands is known after every answer.
        ensures counted { OnOk result (steps_of self.new ≡ steps_of self.old + length steps.items) }
        ensures numbered { (why : Unlawful) → result ≡ Err (Refused why)
            → why.step ≡ steps_of self.new + 1 }
        ensures later { steps_of self.old ≤ steps_of self.new }
        ensures few { steps_of self.new ≤ steps_of self.old + length steps.items }
    {
        if self.failed {
            return Err(StepFault::OutOfMemory);
        }
        for step in steps {
            self.step(alloc, step)?;
        }
        Ok(())
    }

    /// Makes all steps of a write: it begins, is shown to these sessions in their order, and ends. It takes steps that can
    /// be made, judges none of them, and keeps nothing of the write.
    pub fn write(&mut self, thread: u32, stamp: u64, write: &Write, sessions: &[u32])
        requires can { CanWrite thread stamp write.now sessions.now self.old }
        requires working { has_failed self.old ≡ false }
        requires few { steps_of self.old + length sessions.now + 2 ≤ 2 ^ 63 }

        ensures made { (events : List EventDef) (info : TraceInfo) (past : Past)
            → Follows events info past self.old
            → IsLawful events (with_write thread stamp write.now sessions.now past)
            → Follows events info (with_write thread stamp write.now sessions.now past) self.new }
        ensures working { has_failed self.new ≡ false }
        ensures counted { steps_of self.new ≡ steps_of self.old + length sessions.now + 2 }
    {
        a_finished_session_stays();
        make_whole(&mut self.work.tables, thread, stamp, write, sessions);
        self.steps += sessions.len() as u64 + 2;
    }

    /// The stream of a session, once it was finished.
    pub fn stream(&self, session: u32) -> Option<&[u8]>
        ensures some { (events : List EventDef) (info : TraceInfo) (past : Past)
            → Follows events info past self.now
            → IfSome result (λ bytes. (is_finished session past ≡ true) × IsStreamOf events info session past bytes.now) }
        ensures none { (events : List EventDef) (info : TraceInfo) (past : Past)
            → Follows events info past self.now
            → IfNone result (is_finished session past ≡ false) }
        // It depends on the session's own steps alone.
        ensures alone { (events : List EventDef) (info : TraceInfo) (past : Past)
            → Follows events info past self.now
            → IfSome result (λ bytes. IsCanonical info (told_entries events session (only session past)) bytes.now) }
    {
        finished_sessions_are_faithful();
        the_program_has_no_thread_0();
        a_faithful_stream_is_found();
        a_stream_with_a_rundown_is_faithful();
        what_is_told_is_a_session_s_own();
        let ended = self.ended.get(&session)?;
        Some(ended.sink.taken())
    }

    /// What a session had of each thread, ascending by thread, once it was finished.
    pub fn marks(&self, session: u32) -> Option<&[Marks]>
        ensures some { (events : List EventDef) (info : TraceInfo) (past : Past)
            → Follows events info past self.now
            → IfSome result (λ marks. (is_finished session past ≡ true) × (marks.now ≡ marks_of session past)) }
        ensures none { (events : List EventDef) (info : TraceInfo) (past : Past)
            → Follows events info past self.now
            → IfNone result (is_finished session past ≡ false) }
    {
        let ended = self.ended.get(&session)?;
        Some(ended.marks.as_slice())
    }
}

// Makes a step that can be made.
#[inline(always)]
fn make(
    work: &mut Work,
    ended: &mut BTreeMap<u32, Ended>,
    alloc: Global,
    info: &TraceInfo,
    judged: Judged,
) -> Result<(), AllocError>
    requires { IsNext judged work.old }
    ensures works { OnOk result (MakesWith info.now judged work.old work.new) }
    ensures ended { OnOk result (EndedFollowOnWith info.now judged work.old ended.old ended.new) }
{
    a_finished_session_stays();
    match judged {
        Judged::Accept { session, config } => work.accept(alloc, session, config, info)?,
        Judged::Enter(on) => work.enter(on)?,
        Judged::Leave(on) => work.leave(on),
        Judged::Open(both) => work.open(alloc, both)?,
        Judged::Begin { on, stamp, write } => work.begin(on, stamp, write),
        Judged::Show(both) => work.show(both),
        Judged::End(on) => work.end(on),
        Judged::Steal(both) => work.steal(alloc, both)?,
        Judged::Give(of) => work.give(of),
        Judged::Point { of, stamp } => work.point(alloc, of, stamp)?,
        Judged::Close(both) => work.close(alloc, both)?,
        Judged::Finish { of, stamp } => finish(work, ended, alloc, of, stamp)?,
    }
    Ok(())
}

// Finishes a session, and keeps what is left of it.
#[inline(never)]
fn finish(
    work: &mut Work,
    ended: &mut BTreeMap<u32, Ended>,
    alloc: Global,
    of: OfSession,
    stamp: u64,
) -> Result<(), AllocError>
    requires { IsNext (Finish of stamp) work.old }
    ensures works { OnOk result (Makes (Finish of stamp) work.old work.new) }
    ensures ended { OnOk result (EndedFollowOn (Finish of stamp) work.old ended.old ended.new) }
{
    a_finished_session_stays();
    let left = work.finish(alloc, of, stamp)?;
    ended.insert(of.session, left)?;
    Ok(())
}
