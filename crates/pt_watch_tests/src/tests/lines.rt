//! What the command prints.
use pt_asked::asked_of;
use pt_command::End;
use pt_io::{MemSink, OpenGate, StepClock};
use pt_watch::watch;
use std::alloc::{AllocError, Global};
use std::process::Abort;
use std::str;
use std::sync::Wait;
use std::test::Fail;
use std::thread::Threads;
use std::time::Clock as Timer;

/// How a command ended, what it printed, and of how many threads it tells the writes.
type Told = (End, String, usize);

/// What is asked for, whether the output fails at its first write, and what the command comes to.
const RUNS: [(&str, bool, (End, &str, usize)); 3] = [
    // A line for each thread, and one for each event that was heard.
    (
        "watch 2 8 Sample-Store:1:4",
        false,
        (
            End::Done,
            "heard          1          1          0\nheard          2          1          0\ncount          6          2\n",
            2,
        ),
    ),
    (
        "watch 1 0 P",
        false,
        (End::Done, "heard          1          0          0\n", 1),
    ),
    // An output that fails is told behind the run.
    ("watch 3 8 Sample-Store", true, (End::WriteFault, "", 3)),
];

/// Words that ask for no listener.
const OTHERS: [&str; 8] = [
    "trace 2 8 P",
    "watch 2 8",
    "watch 0 8 P",
    "watch 257 8 P",
    "watch 1 4000000001 P",
    "watch 1 1 :1",
    "watch 1 1 P --mb 0",
    "watch 1 1 P --seed -1",
];

// The words of a line, which are apart by spaces.
fn words_of(alloc: Global, line: &str) -> Result<Vec<String>, AllocError> {
    let mut words = Vec::new(alloc);
    for word in line.split(' ') {
        words.push(word.to_owned(alloc)?)?;
    }
    Ok(words)
}

// An output that fails at its first write if it is to.
fn output(alloc: Global, fails: bool) -> Result<MemSink, AllocError> {
    let mut faults = Vec::new(alloc);
    if fails {
        faults.push(1u64)?;
    }
    Ok(MemSink::new(faults))
}

// What an output took.
fn text_of(alloc: Global, taken: &[u8]) -> Result<String, AllocError> {
    match str::from_utf8(taken) {
        Ok(text) => text.to_owned(alloc),
        Err(_) => Ok(String::new(alloc)),
    }
}

// Does what the words of a line ask for.
fn told<R: Threads + Wait + Timer + Abort + Sync>(
    rt: &R,
    alloc: Global,
    line: &str,
    fails: bool,
) -> Result<Told, Fail> {
    let words = words_of(alloc, line)?;
    let Some(asked) = asked_of(alloc, "watch", words.as_slice())? else {
        return Ok((End::Words, String::new(alloc), 0));
    };
    let mut output = output(alloc, fails)?;
    let done = watch(
        rt,
        alloc,
        asked,
        &mut output,
        &StepClock::new(100),
        &OpenGate,
    );
    let text = text_of(alloc, output.taken())?;
    Ok((done.end, text, done.rows.len()))
}

// The sum of the last two numbers of the lines of threads.
fn sum_of(text: &str) -> u64 {
    let mut sum = 0u64;
    for line in text.lines() {
        if line.starts_with("heard") {
            for number in line.split_ascii_whitespace().skip(2) {
                sum = sum.wrapping_add(number.parse().unwrap_or(0));
            }
        }
    }
    sum
}

#[test]
fn a_line_is_printed_for_each_thread_and_for_each_event_that_was_heard(
    rt: HostRuntime,
) -> Result<(), Fail> {
    for (line, fails, wanted) in &RUNS {
        let (end, text, threads) = told(&rt, rt.alloc(), line, *fails)?;
        assert_eq!(rt; (end, text.as_str(), threads), *wanted);
    }
    Ok(())
}

#[test]
fn other_words_are_no_watch(rt: HostRuntime) -> Result<(), Fail> {
    for line in OTHERS {
        assert_eq!(rt; told(&rt, rt.alloc(), line, false)?.0, End::Words);
    }
    Ok(())
}

#[test]
fn what_is_heard_and_what_is_refused_is_all_of_millions_of_writes(
    rt: HostRuntime,
) -> Result<(), Fail> {
    let line = "watch 4 1000000 Sample-Web,Sample-Store,Sample-Jobs --mb 1";
    let (end, text, _) = told(&rt, rt.alloc(), line, false)?;
    assert_eq!(rt; (end, sum_of(text.as_str())), (End::Done, 4_000_000));
    Ok(())
}
