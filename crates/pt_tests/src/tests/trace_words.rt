//! Words of `trace`, good and bad.
use super::texts::words_of;
use ep_defs::Config;
use pt_asked::asked_of;
use std::alloc::{AllocError, Global};
use std::test::Fail;

/// The seed, the threads and the writes of a plan; the chunks of a session, how many rules it has, whether it gets stacks,
/// and whether it gets a rundown.
type Numbers = (u64, u32, u32, u32, usize, bool, bool);

// Words that ask for a plan and a session.
const GOOD: [(&str, Numbers); 4] = [
    ("trace 2 8 P:1:4", (0, 2, 8, 4_096, 1, true, false)),
    (
        "trace 1 0 P:1:4 --mb 1 --seed=7",
        (7, 1, 0, 16, 1, true, false),
    ),
    (
        "trace --seed 18446744073709551615 256 --mb=1024 4000000000 P:1:4",
        (u64::MAX, 256, 4_000_000_000, 16_384, 1, true, false),
    ),
    (
        "trace 001 1 P:1:4 --mb 4294967295",
        (0, 1, 1, 16_384, 1, true, false),
    ),
];

// Words that are refused.
const OTHERS: [&str; 17] = [
    "trace",
    "trace 1 1",
    "trace 0 1 P",
    "trace 257 1 P",
    "trace 1 4000000001 P",
    "trace +1 1 P",
    "trace 1 x P",
    "trace 1 1 P --mb 0",
    "trace 1 1 P --mb 4294967296",
    "trace 1 1 P --seed 18446744073709551616",
    "trace 1 1 P --seed",
    "trace 1 1 P --mb 1 --mb 1",
    "trace 1 1 :1",
    "trace 1 1 P:xy",
    "trace 1 1 P 1",
    "tracer 1 1 P",
    "gen 1 1",
];

// The numbers that the words ask for.
fn numbers(alloc: Global, words: &str) -> Result<Option<Numbers>, AllocError> {
    let words = words_of(alloc, words)?;
    let Some(asked) = asked_of(alloc, "trace", &words)? else {
        return Ok(None);
    };
    let plan = asked.plan;
    let Config {
        rules,
        chunks,
        stackwalk,
        rundown,
    } = asked.config;
    Ok(Some((
        plan.seed,
        plan.threads,
        plan.writes,
        chunks,
        rules.as_slice().len(),
        stackwalk,
        rundown,
    )))
}

#[test]
fn words_ask_for_a_plan_and_a_session(rt: HostRuntime) -> Result<(), Fail> {
    for (words, wanted) in GOOD {
        assert_eq!(rt; numbers(rt.alloc(), words)?, Some(wanted));
    }
    Ok(())
}

#[test]
fn other_words_are_refused(rt: HostRuntime) -> Result<(), Fail> {
    for words in OTHERS {
        assert_eq!(rt; numbers(rt.alloc(), words)?, None);
    }
    Ok(())
}
