//! The steps of small schedules that are generated, and what they come to.
use crate::tests::runs::{Calls, compare, generated, words_of};
use ep_model::Step;
use pt_command::status;
use pt_gen::{Asked, Counts, Gen, Summary, asked_of, summed_up};
use std::alloc::{AllocError, Global};
use std::test::Fail;

// A step's word and numbers in a schedule's text, and how many numbers it has; of a configuration and a write only some.
fn told(step: &Step) -> (&'static str, [u64; 4], usize) {
    match step {
        Step::Accept { session, config } => {
            let rules = config.rules.as_slice().len() as u64;
            let chunks = u64::from(config.chunks);
            ("accept", [u64::from(*session), chunks, rules, 0], 3)
        }
        Step::Open { session, thread } => {
            ("open", [u64::from(*session), u64::from(*thread), 0, 0], 2)
        }
        Step::Begin {
            thread,
            stamp,
            write,
        } => {
            let frames = write.frames.as_slice().len() as u64;
            let event = u64::from(write.event);
            ("begin", [u64::from(*thread), *stamp, event, frames], 4)
        }
        Step::Show { thread, session } => {
            ("show", [u64::from(*thread), u64::from(*session), 0, 0], 2)
        }
        Step::End { thread } => ("end", [u64::from(*thread), 0, 0, 0], 1),
        Step::Steal { session, thread } => {
            ("steal", [u64::from(*session), u64::from(*thread), 0, 0], 2)
        }
        Step::Give { session } => ("give", [u64::from(*session), 0, 0, 0], 1),
        Step::Point { session, stamp } => ("point", [u64::from(*session), *stamp, 0, 0], 2),
        Step::Close { session, thread } => {
            ("close", [u64::from(*session), u64::from(*thread), 0, 0], 2)
        }
        Step::Finish { session, stamp } => ("finish", [u64::from(*session), *stamp, 0, 0], 2),
        Step::Enter { thread } => ("enter", [u64::from(*thread), 0, 0, 0], 1),
        Step::Leave { thread } => ("leave", [u64::from(*thread), 0, 0, 0], 1),
    }
}

// Puts a word and its first numbers, with a semicolon at their end.
fn put_words(
    alloc: Global,
    text: &mut String,
    word: &str,
    numbers: &[u64; 4],
    count: usize,
) -> Result<(), AllocError> {
    text.push_str(word)?;
    for number in numbers.iter().take(count) {
        let number = format!(in alloc; " {number}")?;
        text.push_str(number.as_str())?;
    }
    text.push_str(";")
}

// Puts the next step, or that there is none.
fn put_next(alloc: Global, steps: &mut Gen, text: &mut String) -> Result<(), AllocError> {
    let step = steps.next(alloc)?;
    let (word, numbers, count) = match &step {
        Some(step) => told(step),
        None => ("none", [0; 4], 0),
    };
    put_words(alloc, text, word, &numbers, count)
}

fn skip(alloc: Global, steps: &mut Gen, count: u32) -> Result<(), AllocError> {
    for _ in 0..count {
        steps.next(alloc)?;
    }
    Ok(())
}

// So many steps of a schedule, behind those that are skipped.
fn steps_of(
    alloc: Global,
    seed: u64,
    rounds: u32,
    skipped: u32,
    taken: u32,
) -> Result<String, AllocError> {
    let mut steps = Gen::new(seed, rounds);
    skip(alloc, &mut steps, skipped)?;
    let mut text = String::new(alloc);
    for _ in 0..taken {
        put_next(alloc, &mut steps, &mut text)?;
    }
    Ok(text)
}

/// A seed, the rounds, the steps that are skipped, those that are taken, and these. Nothing comes after the last step.
const STEPS: [(u64, u32, u32, u32, &str); 4] = [
    // One write is made between opening and closing.
    (
        0,
        1,
        0,
        33,
        "accept 1 4 3;accept 2 1 1;\
        open 1 1;open 1 2;open 1 3;open 1 4;open 2 1;open 2 2;open 2 3;open 2 4;\
        begin 1 0 2 0;show 1 1;end 1;\
        close 1 1;give 1;close 1 2;give 1;close 1 3;give 1;close 1 4;give 1;finish 1 1;\
        close 2 1;give 2;close 2 2;give 2;close 2 3;give 2;close 2 4;give 2;finish 2 1;none;none;",
    ),
    // Threads write in turn.
    (
        3,
        5,
        10,
        36,
        "begin 4 0 8 0;show 4 1;end 4;\
        begin 1 1 5 0;show 1 1;end 1;\
        begin 2 2 6 0;show 2 1;show 2 2;end 2;\
        begin 3 3 7 0;show 3 1;end 3;\
        begin 4 4 1 1;show 4 1;end 4;\
        close 1 1;give 1;close 1 2;give 1;close 1 3;give 1;close 1 4;give 1;finish 1 5;\
        close 2 1;give 2;close 2 2;give 2;close 2 3;give 2;close 2 4;give 2;finish 2 5;none;none;",
    ),
    // Both sessions sweep after 4,096 rounds, whose last step is the (10 + 3 * 4,096 + 512)th.
    (
        0,
        4_096,
        12_809,
        39,
        "end 4;\
        steal 1 1;give 1;steal 1 2;give 1;steal 1 3;give 1;steal 1 4;give 1;point 1 4096;\
        steal 2 1;give 2;steal 2 2;give 2;steal 2 3;give 2;steal 2 4;give 2;point 2 4096;\
        close 1 1;give 1;close 1 2;give 1;close 1 3;give 1;close 1 4;give 1;finish 1 4096;\
        close 2 1;give 2;close 2 2;give 2;close 2 3;give 2;close 2 4;give 2;finish 2 4096;none;none;",
    ),
    // Without a write there are 28 steps.
    (
        u64::MAX,
        0,
        0,
        30,
        "accept 1 4 3;accept 2 1 1;\
        open 1 1;open 1 2;open 1 3;open 1 4;open 2 1;open 2 2;open 2 3;open 2 4;\
        close 1 1;give 1;close 1 2;give 1;close 1 3;give 1;close 1 4;give 1;finish 1 0;\
        close 2 1;give 2;close 2 2;give 2;close 2 3;give 2;close 2 4;give 2;finish 2 0;none;none;",
    ),
];

#[test]
fn the_steps_come_in_their_order(rt: HostRuntime) -> Result<(), Fail> {
    for (seed, rounds, skipped, taken, want) in STEPS {
        let steps = steps_of(rt.alloc(), seed, rounds, skipped, taken)?;
        assert_eq!(rt; steps.as_str(), want);
    }
    Ok(())
}

/// Command lines, the write that fails, and the status with what is written.
const SUMMARIES: [(&str, u64, u8, &[u8]); 15] = [
    (
        "gen 0 16",
        0,
        status::DONE,
        b"gen          0         16\n\
        session          1         16         16          0\n\
        session          2          3          1          2\n",
    ),
    (
        "gen 18446744073709551615 1",
        0,
        status::DONE,
        b"gen 18446744073709551615          1\n\
        session          1          1          1          0\n\
        session          2          0          0          0\n",
    ),
    (
        "gen 0 1000000",
        0,
        status::DONE,
        b"gen          0    1000000\n\
        session          1    1000000     756976     243024\n\
        session          2     125000      31250      93750\n",
    ),
    // An output that fails has a part.
    ("gen 0 1", 1, status::WRITE_FAULT, b"gen "),
    // Other words are refused.
    ("gen", 0, status::WORDS, b""),
    ("gen 0", 0, status::WORDS, b""),
    ("gen 0 0", 0, status::WORDS, b""),
    ("gen 0 1000001", 0, status::WORDS, b""),
    ("gen 18446744073709551616 1", 0, status::WORDS, b""),
    ("gen -0 1", 0, status::WORDS, b""),
    ("gen 0 +1", 0, status::WORDS, b""),
    ("gen  1", 0, status::WORDS, b""),
    ("gen 0 1 2", 0, status::WORDS, b""),
    ("generate 0 1", 0, status::WORDS, b""),
    ("replay", 0, status::WORDS, b""),
];

fn wrong_summaries(alloc: Global) -> Result<String, AllocError> {
    let mut wrong = String::new(alloc);
    for (row, (line, write, status, want)) in SUMMARIES.iter().enumerate() {
        let calls = Calls {
            most: 1,
            read: 0,
            write: *write,
            kept: 4,
        };
        let found = generated(alloc, line, calls)?;
        compare(alloc, &mut wrong, row, &found, (*status, 0, want))?;
    }
    Ok(wrong)
}

#[test]
fn schedules_are_summed_up_and_other_words_refused(rt: HostRuntime) -> Result<(), Fail> {
    assert_eq!(rt; wrong_summaries(rt.alloc())?.as_str(), "");
    Ok(())
}

#[test]
fn the_narrow_session_refuses_most_of_4096_writes(rt: HostRuntime) -> Result<(), Fail> {
    let asked = Asked {
        seed: 0,
        writes: 4_096,
    };
    let want = Summary {
        wide: Counts {
            admitted: 4_096,
            written: 3_100,
            refused: 996,
        },
        narrow: Counts {
            admitted: 512,
            written: 128,
            refused: 384,
        },
    };
    assert_eq!(rt; summed_up(rt.alloc(), asked)?, want);
    Ok(())
}

// The seed and the writes that a command line asks for, no writes where it is refused.
fn asked_by(alloc: Global, line: &str) -> Result<(u64, u32), AllocError> {
    let asked = asked_of(alloc, &words_of(alloc, line)?)?;
    Ok(match asked {
        Some(asked) => (asked.seed, asked.writes),
        None => (0, 0),
    })
}

#[test]
fn a_million_writes_can_be_asked_for(rt: HostRuntime) -> Result<(), Fail> {
    assert_eq!(rt; asked_by(rt.alloc(), "gen 007 1000000")?, (7, 1_000_000));
    Ok(())
}
