//! Words of `run`, good and bad.
use super::texts::words_of;
use pt_run::asked_of;
use std::alloc::{AllocError, Global};
use std::test::Fail;

/// Threads, writes, seed, wait, streamers, lives, and how many links to a tool there are, 0 where none is called.
type Numbers = (u32, u32, u64, u32, u32, u32, u32);

// Words that ask for a run.
const GOOD: [(&str, Numbers); 9] = [
    ("run 4 10000 --wait 2", (4, 10_000, 0, 2, 4, 1, 0)),
    ("run 1 0", (1, 0, 0, 1, 4, 1, 0)),
    ("run 256 4000000000", (256, 4_000_000_000, 0, 1, 4, 1, 0)),
    (
        "run --lives=3 2 80 --streamers 1 --wait=1 --seed 18446744073709551615",
        (2, 80, u64::MAX, 1, 1, 3, 0),
    ),
    ("run 002 80 --wait 64", (2, 80, 0, 64, 4, 1, 0)),
    (
        "run 2 80 --streamers 64 --lives 100",
        (2, 80, 0, 1, 64, 100, 0),
    ),
    ("run 2 80 --reverse /x", (2, 80, 0, 1, 4, 1, 500)),
    ("run 2 80 --reverse /x --calls 1", (2, 80, 0, 1, 4, 1, 1)),
    ("run --calls=500 2 80 --reverse=x", (2, 80, 0, 1, 4, 1, 500)),
];

// Words that ask for none.
const BAD: [&str; 29] = [
    "",
    "run",
    "run 4",
    "trace 4 10000",
    "run 4 10000 1",
    "run 0 10000",
    "run 257 10000",
    "run 4 4000000001",
    "run four 10000",
    "run +4 10000",
    "run 4 -1",
    "run 4 10000 --wait 0",
    "run 4 10000 --wait 65",
    "run 4 10000 --wait",
    "run 4 10000 --streamers 0",
    "run 4 10000 --streamers 65",
    "run 4 10000 --lives 0",
    "run 4 10000 --lives 101",
    "run 4 10000 --seed 18446744073709551616",
    "run 4 10000 --seed=",
    "run 4 10000 --wait 1 --wait 1",
    "run 4 10000 --mb 1",
    "run 4 10000 --reverse",
    "run 4 10000 --reverse=",
    "run 4 10000 --calls 1",
    "run 4 10000 --reverse /x --calls 0",
    "run 4 10000 --reverse /x --calls 501",
    "run 4 10000 --help",
    "-- run 4 10000",
];

// The numbers that the words ask for.
fn numbers(alloc: Global, words: &str) -> Result<Option<Numbers>, AllocError> {
    let words = words_of(alloc, words)?;
    let Some(asked) = asked_of(alloc, &words)? else {
        return Ok(None);
    };
    let plan = asked.plan;
    Ok(Some((
        plan.threads,
        plan.writes,
        plan.seed,
        asked.wait,
        asked.streamers,
        asked.lives,
        match asked.reverse {
            Some(tool) => tool.calls,
            None => 0,
        },
    )))
}

#[test]
fn good_words_ask_for_their_run(rt: HostRuntime) -> Result<(), Fail> {
    for (words, wanted) in GOOD {
        assert_eq!(rt; numbers(rt.alloc(), words)?, Some(wanted));
    }
    Ok(())
}

#[test]
fn other_words_ask_for_none(rt: HostRuntime) -> Result<(), Fail> {
    for words in BAD {
        assert_eq!(rt; numbers(rt.alloc(), words)?, None);
    }
    Ok(())
}
