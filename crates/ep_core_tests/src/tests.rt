ghost use Rattle.std.specs.Prelude.{◌≡◌, ◌∷◌, [], not, IsTrue, IfOk};
ghost use Rattle.ep_defs.specs.Event.{is_valid_event, is_same_event};
ghost use Rattle.ep_rundown.specs.Rundown.{rundown_def};
ghost use Rattle.ep_core.specs.Machine.{steps_of};

use ep_core::{Machine, StepFault};
use ep_defs::{Config, EventDef, Items, Marks, Rule, Units, Write, standard_info};
use ep_model::{Kind, Step};
use std::alloc::{AllocError, Global};
use std::test::Fail;

mod table;

fn text(alloc: Global, unit: u16) -> Result<Units, AllocError>
    ensures { IfOk result (λ text. text ≡ unit ∷ []) }
{
    Ok(Items::new(Vec::from_array(alloc, [unit])?))
}

// The event E of P, without fields.
fn event(alloc: Global) -> Result<EventDef, AllocError>
    ensures valid { IfOk result (λ def. IsTrue (is_valid_event def)) }
    ensures other { IfOk result (λ def. IsTrue (not (is_same_event def rundown_def))) }
{
    let provider = text(alloc, 0x50)?;
    let name = text(alloc, 0x45)?;
    Ok(EventDef {
        provider,
        id: 1,
        version: 0,
        level: 4,
        keywords: 1,
        name,
        fields: Items::new(Vec::new(alloc)),
    })
}

// A machine of that event alone.
fn machine(alloc: Global) -> Result<Machine, AllocError>
    ensures { IfOk result (λ machine. steps_of machine ≡ 0) }
{
    let events = Vec::from_array(alloc, [event(alloc)?])?;
    Machine::new(alloc, events, standard_info(1, 1))
}

// Events of P with the keyword 1, up to level 4.
fn config(alloc: Global) -> Result<Config, AllocError> {
    let rule = Rule {
        name: text(alloc, 0x50)?,
        keywords: 1,
        level: 4,
    };
    Ok(Config {
        rules: Items::new(Vec::from_array(alloc, [rule])?),
        chunks: 16,
        stackwalk: true,
        rundown: false,
    })
}

// The event, and nothing else.
fn write(alloc: Global) -> Write {
    Write {
        event: 1,
        activity: [0; 16],
        related: [0; 16],
        frames: Items::new(Vec::new(alloc)),
        payload: Items::new(Vec::new(alloc)),
    }
}

// Session 1 takes one write of thread 1.
fn one_write(alloc: Global) -> Result<Vec<Step>, AllocError> {
    let accept = Step::Accept {
        session: 1,
        config: config(alloc)?,
    };
    let begin = Step::Begin {
        thread: 1,
        stamp: 100,
        write: write(alloc),
    };
    Ok(Vec::from_array(
        alloc,
        [
            accept,
            Step::Open {
                session: 1,
                thread: 1,
            },
            begin,
            Step::Show {
                thread: 1,
                session: 1,
            },
            Step::End { thread: 1 },
            Step::Steal {
                session: 1,
                thread: 1,
            },
            Step::Give { session: 1 },
            Step::Close {
                session: 1,
                thread: 1,
            },
            Step::Finish {
                session: 1,
                stamp: 200,
            },
        ],
    )?)
}

// The stream of a session that took one write: the head, the Trace object, a metadata block, an event block, a point.
const STREAM: &[u8] =
    b"Nettrace\x14\0\0\0!FastSerialization.1\x05\x05\x01\x04\0\0\0\x04\0\0\0\x05\0\0\0Trace\x06\xb2\x07\x01\0\x04\0\x01\0\0\0\0\0\0\0\0\0\0\0\0\0\0\0\0\0\0\xca\x9a\x3b\0\0\0\0\x08\0\0\0\x01\0\0\0\x01\0\0\0\0\0\0\0\x06\x05\x05\x01\x02\0\0\0\x02\0\0\0\x0d\0\0\0MetadataBlock\x06\x3b\0\0\0\0\x14\0\x01\0\0\0\0\0\0\0\0\0\0\0\0\0\0\0\0\0\xc0\0\x24\x01\0\0\0P\0\0\0\x01\0\0\0E\0\0\0\x01\0\0\0\0\0\0\0\0\0\0\0\x04\0\0\0\0\0\0\0\x06\x05\x05\x01\x02\0\0\0\x02\0\0\0\x0a\0\0\0EventBlock\x06\x1b\0\0\0\0\0\x14\0\x01\0\x64\0\0\0\0\0\0\0\x64\0\0\0\0\0\0\0\x07\x01\0\x01\0\x01\x64\x06\x05\x05\x01\x02\0\0\0\x02\0\0\0\x07\0\0\0SPBlock\x06\x18\0\0\0\0\xc8\0\0\0\0\0\0\0\x01\0\0\0\x01\0\0\0\0\0\0\0\x01\0\0\0\x06\x01";

// What it had of its one thread.
const MARKS: &[Marks] = &[Marks {
    thread: 1,
    from: 0,
    to: 1,
    taken: 1,
    refused: 0,
}];

// That it was made, or which step can't be made, and why; or nothing where memory is missing.
fn answer(made: Result<(), StepFault>) -> Option<Result<(), (u64, Kind)>> {
    match made {
        Ok(()) => Some(Ok(())),
        Err(StepFault::Unlawful(why)) => Some(Err((why.step, why.kind))),
        Err(StepFault::OutOfMemory) => None,
    }
}

// A machine that made one run.
fn one_run(alloc: Global) -> Result<(Option<Result<(), (u64, Kind)>>, Machine), AllocError> {
    let steps = one_write(alloc)?;
    let mut machine = machine(alloc)?;
    let made = answer(machine.run(alloc, steps));
    Ok((made, machine))
}

// A machine which a thread leaves that never came, and then one that did; and which makes the run twice.
fn two_runs(alloc: Global) -> Result<([Option<Result<(), (u64, Kind)>>; 4], Machine), AllocError> {
    let steps = one_write(alloc)?;
    let again = one_write(alloc)?;
    let mut machine = machine(alloc)?;
    let made = [
        answer(machine.step(alloc, Step::Leave { thread: 257 })),
        answer(machine.step(alloc, Step::Leave { thread: 2 })),
        answer(machine.run(alloc, steps)),
        answer(machine.run(alloc, again)),
    ];
    Ok((made, machine))
}

#[test]
fn a_run_leaves_a_stream_and_marks(rt: HostRuntime) -> Result<(), Fail> {
    let (made, machine) = one_run(rt.alloc())?;
    assert_eq!(rt;
        (
            made,
            [machine.stream(1), machine.stream(2)],
            [machine.marks(1), machine.marks(2)],
        ),
        (Some(Ok(())), [Some(STREAM), None], [Some(MARKS), None],)
    );
    Ok(())
}

#[test]
fn a_refused_step_changes_nothing(rt: HostRuntime) -> Result<(), Fail> {
    let (made, machine) = two_runs(rt.alloc())?;
    let wanted = [
        Some(Err((1, Kind::NoThread))),
        Some(Ok(())),
        Some(Ok(())),
        Some(Err((11, Kind::SessionNumber))),
    ];
    assert_eq!(rt; (made, machine.stream(1)), (wanted, Some(STREAM)));
    Ok(())
}
