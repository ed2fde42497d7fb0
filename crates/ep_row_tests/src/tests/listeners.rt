//! Batches of records, and a callback that keeps what it hears.
ghost use Rattle.std.specs.Prelude.{◌≡◌, ◌+◌, ◌≤◌, IfOk, length};
ghost use Rattle.ep_slot.specs.Chain.{records_of};

use ep_chunk::{Chain, Chunk, RecIn};
use ep_defs::Marks;
use ep_listen::{Callback, Heard, Listener};
use ep_slot::Batch;
use std::alloc::{AllocError, Global};

/// What was heard of a record.
#[derive(Debug, PartialEq, Eq, Drop)]
struct Told {
    event: u32,
    number: u32,
    thread: u64,
    stamp: u64,
    activity: [u8; 16],
    related: [u8; 16],
    frames: Vec<u8>,
    payload: Vec<u8>,
}

/// Keeps so many events, and is out of memory then.
#[derive(Drop)]
struct Keeper {
    kept: Vec<Told>,
    most: usize,
}

impl Callback for Keeper {
    ghost has_heard = { λ _ _. Unit {0} };

    fn heard(&mut self, alloc: Global, event: &Heard<'_>) -> Result<(), AllocError> {
        if self.kept.len() >= self.most {
            return Err(AllocError);
        }
        self.kept.push(Told {
            event: event.event,
            number: event.number,
            thread: event.thread,
            stamp: event.stamp,
            activity: event.activity,
            related: event.related,
            frames: event.frames.to_vec(alloc)?,
            payload: event.payload.to_vec(alloc)?,
        })?;
        Ok(())
    }
}

// Appends a record of thread 7 with this number, with one frame and a byte of payload.
fn append(chunk: &mut Chunk, number: u32)
    ensures { length chunk.new ≤ length chunk.old + 1 }
{
    chunk.append(&RecIn {
        event: 3,
        number,
        thread: 7,
        stamp: 100,
        activity: [1; 16],
        related: [2; 16],
        frames: &[4096],
        payload: &[9],
    });
}

// A chain of one chunk with two records of these numbers.
fn chain_of(alloc: Global, first: u32, second: u32) -> Result<Chain, AllocError>
    ensures one { IfOk result (λ chain. length chain ≡ 1) }
    ensures few { IfOk result (λ chain. length (records_of chain) ≤ 2) }
{
    let mut chunk = Chunk::new(alloc)?;
    append(&mut chunk, first);
    append(&mut chunk, second);
    match Chain::one(alloc, chunk) {
        Ok(chain) => Ok(chain),
        Err(_) => Err(AllocError),
    }
}

// What is heard of a record with this number.
fn told_with(alloc: Global, number: u32) -> Result<Told, AllocError> {
    Ok(Told {
        event: 3,
        number,
        thread: 7,
        stamp: 100,
        activity: [1; 16],
        related: [2; 16],
        frames: [0, 16, 0, 0, 0, 0, 0, 0].to_vec(alloc)?,
        payload: [9].to_vec(alloc)?,
    })
}

fn told_of(alloc: Global, numbers: [u32; 6]) -> Result<Vec<Told>, AllocError> {
    let mut all = Vec::new(alloc);
    for number in numbers {
        all.push(told_with(alloc, number)?)?;
    }
    Ok(all)
}

/// What came of a listener.
#[derive(Drop)]
struct Left {
    kept: Vec<Told>,
    answers: [Option<u32>; 2],
    failed: bool,
    marks: usize,
}

// Hands over a batch of the records 1 and 3, and then the last one, of the records 4, 5, 7 and 8 in two chunks, to a callback
// that keeps so many events.
fn hear(alloc: Global, most: usize) -> Result<Left, AllocError> {
    let keeper = Keeper {
        kept: Vec::new(alloc),
        most,
    };
    let Ok(mut listener) = Listener::new(alloc, keeper, 1) else {
        return Err(AllocError);
    };
    let batch = Batch {
        chain: chain_of(alloc, 1, 3)?,
        last: 3,
    };
    let first = listener.hear(alloc, &batch);
    let mut chain = chain_of(alloc, 4, 5)?;
    chain.join(chain_of(alloc, 7, 8)?);
    let marks = Marks {
        thread: 7,
        from: 0,
        to: 9,
        taken: 6,
        refused: 2,
    };
    let second = listener.leave(alloc, &Batch { chain, last: 8 }, marks);
    let end = listener.end();
    Ok(Left {
        kept: end.callback.kept,
        answers: [first.ok(), second.ok()],
        failed: end.failed,
        marks: end.marks.as_slice().len(),
    })
}

#[test]
fn each_record_is_heard_once_and_unchanged(rt: HostRuntime) -> Result<(), AllocError> {
    let left = hear(rt.alloc(), 100)?;
    assert_eq!(rt;
        (left.answers, left.failed, left.marks),
        ([Some(2), Some(4)], false, 1)
    );
    let wanted = told_of(rt.alloc(), [1, 3, 4, 5, 7, 8])?;
    assert_eq!(rt; left.kept, wanted);
    Ok(())
}

// What a listener answered and kept whose callback is out of memory after so many events.
fn heard_of_few(
    alloc: Global,
    most: usize,
) -> Result<([Option<u32>; 2], usize, bool, usize), AllocError> {
    let left = hear(alloc, most)?;
    Ok((left.answers, left.kept.len(), left.failed, left.marks))
}

#[test]
fn after_want_of_memory_nothing_more_is_heard_and_marks_are_kept(
    rt: HostRuntime,
) -> Result<(), AllocError> {
    for most in 0..6 {
        let first = if most < 2 { None } else { Some(2) };
        assert_eq!(rt;
            heard_of_few(rt.alloc(), most)?,
            ([first, None], most, true, 1)
        );
    }
    Ok(())
}
