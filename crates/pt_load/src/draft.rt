//! A thread's writes, one after another.
ghost use Rattle.std.specs.Prelude.{◌≡◌, ◌≤◌, ◌%◌, ◌++◌, length, drop, IfOk};
ghost use Rattle.std.specs.Int.{w32, to_le_bytes};
ghost use Rattle.std.specs.Borrow.{sem};
ghost use Rattle.pt_load.specs.Sample.{nth, event_at, activity_of, frame_of, frames_of, payload_of, write_of};
ghost use Rattle.pt_load.specs.Shape.{IsShape};

use crate::events::{LAST_REQUEST, REQUEST_STOP, SAMPLES, STORE_OPENED};
use crate::plan::Plan;
use ep_defs::{Bytes, Frames, Items, Write};
use std::alloc::{AllocError, Global};
use std::marker::Model;

/// The address of the code that writes, from which the sample frames are counted.
const CODE_ADDRESS: u64 = 4_194_304;

/// The bytes of a function of the sample program.
const FUNCTION_BYTES: u64 = 4_096;

/// How many functions write.
const FUNCTIONS: u32 = 16;

/// The bytes between two return addresses in one function.
const CALL_BYTES: u64 = 16;

/// The frames of a write run from none up to fewer than this.
const FRAME_COUNTS: u32 = 4;

/// What gives the writes of one thread. Writes whose indexes are equal modulo 8 have one shape.
#[derive(Debug, Drop)]
pub struct Draft {
    plan: Plan,
    thread: u32,
    shapes: Vec<Write>,
}

impl Model for Draft {
    ghost use Rattle.pt_load.specs.Shape.{Drafted, AreShapes};

    ghost Value = { Drafted };

    ghost view = { λ d. record { plan = d.plan; thread = d.thread } };

    ghost invariant = { λ d. AreShapes d.plan d.thread d.shapes.items };
}

impl Draft {
    ghost use Rattle.pt_load.specs.Lending.{StaysTheSame};

    /// What gives the writes of a thread, from 1, in a run.
    pub fn new(alloc: Global, plan: &Plan, thread: u32) -> Result<Draft, AllocError>
        ensures { IfOk result (λ draft. draft ≡ record { plan = plan.now; thread = thread }) }
    {
        let mut shapes = Vec::with_capacity(alloc, SAMPLES as usize)?;
        for index in 0..SAMPLES {
            shapes.push(nth_write(alloc, plan, thread, index)?)?;
        }
        Ok(Draft {
            plan: *plan,
            thread,
            shapes,
        })
    }

    /// The thread's write after this many others. It takes no memory.
    pub fn nth(&mut self, index: u32) -> &Write
        ensures write { result.now ≡ nth self.old.plan self.old.thread index }
        ensures* after { sem 𝓛 (StaysTheSame self.entry) }
    {
        let place = (index % SAMPLES) as usize;
        renumber(&mut self.shapes[place], self.thread, index);
        &self.shapes[place]
    }
}

/// The write of a thread, from 1, after this many others, in memory of its own.
pub fn nth_write(alloc: Global, plan: &Plan, thread: u32, index: u32) -> Result<Write, AllocError>
    ensures { IfOk result (λ write. write ≡ nth plan.now thread index) }
{
    write_of(alloc, event_at(plan, thread, index), thread, index)
}

/// The event that the thread writes then, by its number.
pub fn event_at(plan: &Plan, thread: u32, index: u32) -> u32
    ensures { result ≡ event_at plan.now thread index }
{
    let turn = plan.seed % u64::from(SAMPLES) + u64::from(thread) + u64::from(index);
    1 + (turn % u64::from(SAMPLES)) as u32
}

fn activity_of(event: u32, thread: u32, index: u32) -> [u8; 16]
    ensures { result ≡ activity_of event thread index }
{
    let mut activity = [0; 16];
    if event <= LAST_REQUEST {
        activity[..8].copy_from_slice(&u64::from(thread).to_le_bytes());
        activity[8..].copy_from_slice(&u64::from(index).to_le_bytes());
    }
    activity
}

fn frame_of(index: u32, place: u32) -> u64
    requires { place ≤ 2 }
    ensures { result ≡ frame_of index place }
{
    CODE_ADDRESS + FUNCTION_BYTES * u64::from(index % FUNCTIONS) + CALL_BYTES * u64::from(place)
}

// A write of this event, in memory of its own.
fn write_of(alloc: Global, event: u32, thread: u32, index: u32) -> Result<Write, AllocError>
    requires { (1 ≤ event) × (event ≤ 8) }
    ensures { IfOk result (λ write. write ≡ write_of event thread index) }
{
    Ok(Write {
        event,
        activity: activity_of(event, thread, index),
        related: [0; 16],
        frames: frames_of(alloc, index)?,
        payload: payload_of(alloc, event, thread, index)?,
    })
}

fn frames_of(alloc: Global, index: u32) -> Result<Frames, AllocError>
    ensures { IfOk result (λ frames. frames ≡ frames_of index) }
{
    let count = index % FRAME_COUNTS;
    let mut frames = Vec::with_capacity(alloc, count as usize)?;
    for place in 0..count {
        frames.push(frame_of(index, place))?;
    }
    Ok(Items::new(frames))
}

fn payload_of(alloc: Global, event: u32, thread: u32, index: u32) -> Result<Bytes, AllocError>
    requires { (1 ≤ event) × (event ≤ 8) }
    ensures { IfOk result (λ payload. payload ≡ payload_of event thread index) }
{
    let mut payload = Vec::new(alloc);
    if event != STORE_OPENED {
        payload.extend_from_slice(&index.to_le_bytes())?;
    }
    if event == REQUEST_STOP {
        payload.extend_from_slice(&u64::from(thread).to_le_bytes())?;
    }
    Ok(Items::new(payload))
}

// Gives a write of the right shape the numbers of another index.
fn renumber(write: &mut Write, thread: u32, index: u32)
    requires event { (1 ≤ write.old.event) × (write.old.event ≤ 8) }
    requires shape { IsShape write.old.event thread index write.old }
    ensures { write.new ≡ write_of write.old.event thread index }
{
    write.activity = activity_of(write.event, thread, index);
    set_frames(&mut write.frames, index);
    if write.event != STORE_OPENED {
        set_index(&mut write.payload, index);
    }
}

// Puts the frames of an index in place of as many others.
fn set_frames(frames: &mut Frames, index: u32)
    requires { length frames.old ≡ index % 4 }
    ensures { frames.new ≡ frames_of index }
{
    for place in 0..index % FRAME_COUNTS {
        frames.set(place as usize, frame_of(index, place));
    }
}

// Puts an index at the head of a payload.
fn set_index(payload: &mut Bytes, index: u32)
    requires { 4 ≤ length payload.old }
    ensures { payload.new ≡ to_le_bytes w32 index ++ drop 4 payload.old }
{
    let [first, second, third, fourth] = index.to_le_bytes();
    payload.set(0, first);
    payload.set(1, second);
    payload.set(2, third);
    payload.set(3, fourth);
}
