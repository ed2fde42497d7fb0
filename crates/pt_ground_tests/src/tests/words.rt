use pt_words::{one_text, run_texts, session_text, several_texts, trace_texts, two_texts};
use std::alloc::{AllocError, Global};

// Words, and as which of one, two and several texts they are taken. Where a row has None there are no words.
const POSITIONS: &[PositionRow] = &[
    (None, None, None, None),
    (Some("a=b"), Some("a=b"), None, None),
    (Some("help "), None, Some(("help", "")), None),
    (
        Some("a b c d e"),
        None,
        None,
        Some(("a", "b", &["c", "d", "e"])),
    ),
    (Some("-"), None, None, None),
    (Some("--"), None, None, None),
    (Some("-1"), None, None, None),
    (Some("--help"), None, None, None),
    (Some("-V"), None, None, None),
];

type Pair = (&'static str, &'static str);

// Two texts, and those after them.
type Several = (&'static str, &'static str, &'static [&'static str]);

// Words, and where they are the option once with its text, or none, that text.
const SESSIONS: &[SessionRow] = &[
    (None, Some(None)),
    (Some("--session 7"), Some(Some("7"))),
    (Some("--session=7"), Some(Some("7"))),
    (Some("--session="), Some(Some(""))),
    (Some("--session=="), Some(Some("="))),
    (Some("7"), None),
    (Some(""), None),
    (Some("--session"), None),
    (Some("--session -7"), None),
    (Some("--session --"), None),
    (Some("-- --session=7"), None),
    (Some("--session --session=7"), None),
    (Some("--session 7 8"), None),
    (Some("--session=7 8"), None),
    (Some("--session=7 --session"), None),
    (Some("--session=7 --session=7"), None),
    (Some("--session 7 --session 7"), None),
    (Some("--session=7 --session 7 --session=7"), None),
    (Some("--sess 7"), None),
    (Some("-session=7"), None),
    (Some("--sessions=7"), None),
];

// Words, and where they are the positions `2 8 P` with each option once at most, the texts of `--seed` and `--mb`.
const TRACES: &[TraceRow] = &[
    ("2 8 P", Some((None, None))),
    ("2 8 P --seed 7", Some((Some("7"), None))),
    ("--seed 7 2 8 P", Some((Some("7"), None))),
    ("2 --mb=1 8 P", Some((None, Some("1")))),
    ("--mb 1 2 8 --seed=7 P", Some((Some("7"), Some("1")))),
    ("2 --seed 7 --mb 1 8 P", Some((Some("7"), Some("1")))),
    ("--seed= 2 8 P --mb==", Some((Some(""), Some("=")))),
    ("2 8 --mb 1 P --seed=--mb", Some((Some("--mb"), Some("1")))),
    ("", None),
    ("2 8", None),
    ("2 8 P Q", None),
    ("2 8 --seed 7", None),
    ("2 8 P --seed", None),
    ("2 8 P --seed --mb", None),
    ("2 8 P --mb -1", None),
    ("--seed 7 --seed 7 2 8 P", None),
    ("--seed=7 2 8 P --seed=7", None),
    ("--mb=1 2 8 --mb 1 P", None),
    ("2 8 P --seeds=7", None),
    ("2 8 P -", None),
    ("-- 2 8 P", None),
    ("2 8 -P", None),
];

// Words, and where they are the positions `2 8` with each option once at most, the texts of `--seed`, `--wait`,
// `--streamers` and `--lives`, and those of `--reverse` and `--calls`.
const RUNS: &[RunRow] = &[
    ("2 8", Some(((None, None, None, None), (None, None)))),
    (
        "2 8 --seed 7",
        Some(((Some("7"), None, None, None), (None, None))),
    ),
    (
        "--wait=3 2 8",
        Some(((None, Some("3"), None, None), (None, None))),
    ),
    (
        "2 --streamers 4 8",
        Some(((None, None, Some("4"), None), (None, None))),
    ),
    (
        "2 8 --lives=5",
        Some(((None, None, None, Some("5")), (None, None))),
    ),
    (
        "--reverse /x 2 8",
        Some(((None, None, None, None), (Some("/x"), None))),
    ),
    (
        "2 --calls=9 8",
        Some(((None, None, None, None), (None, Some("9")))),
    ),
    (
        "--lives 5 2 --streamers=4 --calls 6 --wait 3 8 --reverse=/x --seed=7",
        Some((
            (Some("7"), Some("3"), Some("4"), Some("5")),
            (Some("/x"), Some("6")),
        )),
    ),
    (
        "2 8 --seed= --wait==",
        Some(((Some(""), Some("="), None, None), (None, None))),
    ),
    (
        "2 8 --lives=--seed",
        Some(((None, None, None, Some("--seed")), (None, None))),
    ),
    ("", None),
    ("2", None),
    ("2 8 9", None),
    ("2 --seed 7", None),
    ("2 8 --lives", None),
    ("2 8 --wait --seed 7", None),
    ("2 8 --streamers -1", None),
    ("--seed 7 --seed 7 2 8", None),
    ("--wait=1 2 8 --wait 1", None),
    ("2 8 --lives=1 --lives=1", None),
    ("2 8 --reverse=/x --reverse /x", None),
    ("2 8 --calls --reverse /x", None),
    ("2 8 --revers /x", None),
    ("2 8 --live=1", None),
    ("2 8 --mb 1", None),
    ("-- 2 8", None),
    ("2 -8", None),
];

type PositionRow = (
    Option<&'static str>,
    Option<&'static str>,
    Option<Pair>,
    Option<Several>,
);

type SessionRow = (Option<&'static str>, Option<Option<&'static str>>);

type TraceRow = (&'static str, Option<TraceOptions<'static>>);

type RunRow = (&'static str, Option<RunOptions<'static>>);

type TraceOptions<'a> = (Option<&'a str>, Option<&'a str>);

type RunOptions<'a> = (
    (
        Option<&'a str>,
        Option<&'a str>,
        Option<&'a str>,
        Option<&'a str>,
    ),
    (Option<&'a str>, Option<&'a str>),
);

// The words between the spaces.
fn owned(alloc: Global, words: Option<&str>) -> Result<Vec<String>, AllocError> {
    let mut owned = Vec::new(alloc);
    if let Some(words) = words {
        for word in words.split(' ') {
            owned.push(String::from_str(alloc, word)?)?;
        }
    }
    Ok(owned)
}

fn is_one(alloc: Global, words: &[String], wanted: Option<&str>) -> bool {
    match one_text(alloc, words) {
        Ok(text) => text == wanted,
        Err(_) => false,
    }
}

fn is_two(alloc: Global, words: &[String], wanted: Option<Pair>) -> bool {
    match two_texts(alloc, words) {
        Ok(texts) => texts == wanted,
        Err(_) => false,
    }
}

fn is_several(alloc: Global, words: &[String], wanted: Option<Several>) -> bool {
    match several_texts(alloc, words) {
        Ok(Some(texts)) => wanted == Some((texts.one, texts.two, texts.rest.as_slice())),
        Ok(None) => wanted.is_none(),
        Err(_) => false,
    }
}

// Whether the words are one, two and several texts as wanted.
fn are_positions(
    alloc: Global,
    words: Option<&str>,
    one: Option<&str>,
    two: Option<Pair>,
    several: Option<Several>,
) -> [bool; 3] {
    match owned(alloc, words) {
        Ok(words) => [
            is_one(alloc, &words, one),
            is_two(alloc, &words, two),
            is_several(alloc, &words, several),
        ],
        Err(_) => [false; 3],
    }
}

fn is_session(alloc: Global, words: &[String], wanted: Option<Option<&str>>) -> bool {
    match session_text(alloc, words) {
        Ok(text) => text == wanted,
        Err(_) => false,
    }
}

fn has_session(alloc: Global, words: Option<&str>, wanted: Option<Option<&str>>) -> bool {
    match owned(alloc, words) {
        Ok(words) => is_session(alloc, &words, wanted),
        Err(_) => false,
    }
}

fn is_trace(alloc: Global, words: &[String], wanted: Option<TraceOptions>) -> bool {
    match trace_texts(alloc, words) {
        Ok(Some(trace)) => {
            let found = (
                [trace.threads, trace.writes, trace.text],
                Some((trace.seed, trace.megabytes)),
            );
            found == (["2", "8", "P"], wanted)
        }
        Ok(None) => wanted.is_none(),
        Err(_) => false,
    }
}

fn has_trace(alloc: Global, words: &str, wanted: Option<TraceOptions>) -> bool {
    match owned(alloc, Some(words)) {
        Ok(words) => is_trace(alloc, &words, wanted),
        Err(_) => false,
    }
}

fn is_run(alloc: Global, words: &[String], wanted: Option<RunOptions>) -> bool {
    match run_texts(alloc, words) {
        Ok(Some(run)) => {
            let found = (
                [run.threads, run.writes],
                Some((
                    (run.seed, run.wait, run.streamers, run.lives),
                    (run.reverse, run.calls),
                )),
            );
            found == (["2", "8"], wanted)
        }
        Ok(None) => wanted.is_none(),
        Err(_) => false,
    }
}

fn has_run(alloc: Global, words: &str, wanted: Option<RunOptions>) -> bool {
    match owned(alloc, Some(words)) {
        Ok(words) => is_run(alloc, &words, wanted),
        Err(_) => false,
    }
}

// The tables, of which the tests' proofs need no row.
fn positions() -> &'static [PositionRow] {
    POSITIONS
}

fn sessions() -> &'static [SessionRow] {
    SESSIONS
}

fn traces() -> &'static [TraceRow] {
    TRACES
}

fn runs() -> &'static [RunRow] {
    RUNS
}

#[test]
fn words_are_texts_by_their_number_and_begin_with_no_hyphen(rt: HostRuntime) {
    for (words, one, two, several) in positions() {
        let are = are_positions(rt.alloc(), *words, *one, *two, *several);
        assert_eq!(rt; are, [true; 3], "{words:?}");
    }
}

#[test]
fn the_session_is_behind_its_option_and_other_words_are_refused(rt: HostRuntime) {
    for (words, text) in sessions() {
        assert!(rt; has_session(rt.alloc(), *words, *text), "{words:?}");
    }
}

#[test]
fn the_options_of_a_trace_are_anywhere_and_other_words_are_refused(rt: HostRuntime) {
    for (words, options) in traces() {
        assert!(rt; has_trace(rt.alloc(), words, *options), "{words}");
    }
}

#[test]
fn the_options_of_a_run_are_anywhere_and_other_words_are_refused(rt: HostRuntime) {
    for (words, options) in runs() {
        assert!(rt; has_run(rt.alloc(), words, *options), "{words}");
    }
}
