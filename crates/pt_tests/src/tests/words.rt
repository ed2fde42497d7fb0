//! Words, good and bad, of the commands that wait for nobody.
use super::plainly::{call_of, run};
use pt_command::status;
use std::test::Fail;

const OTHER_WORDS: [&[&str]; 22] = [
    &[],
    &[""],
    &["Replay"],
    &["replay "],
    &["--help"],
    &["--session", "1"],
    &["replay", ""],
    &["replay", "x"],
    &["replay", "--"],
    &["replay", "--help"],
    &["replay", "--session"],
    &["replay", "--session="],
    &["replay", "--session", ""],
    &["replay", "--session", "0"],
    &["replay", "--session", "+1"],
    &["replay", "--session", "replay"],
    &["replay", "--session", "000000000000000000001"],
    &["replay", "--session=4294967296"],
    &["replay", "--session=18446744073709551617"],
    &["replay", "--session", "1", "--session", "1"],
    &["replay", "--session=1", "--session=1"],
    &["replay", "--session", "1", ""],
];

#[test]
fn other_words_are_refused(rt: HostRuntime) -> Result<(), Fail> {
    for words in OTHER_WORDS {
        let (status, text) = run(rt.alloc(), &call_of(words, b""))?;
        assert_eq!(rt;
            (status, text.as_slice()),
            (status::WORDS, b"error: words\n".as_slice())
        );
    }
    Ok(())
}

// The words, over no input, their status, and the line that names what they ask for.
const GOOD_WORDS: [(&[&str], u8, &[u8]); 7] = [
    (&["replay"], status::REFUSED, b"error: end: NotFinished 1\n"),
    (
        &["replay", "--session=1"],
        status::REFUSED,
        b"error: end: NotFinished 1\n",
    ),
    (
        &["replay", "--session", "2"],
        status::REFUSED,
        b"error: end: NotFinished 2\n",
    ),
    (
        &["replay", "--session", "02"],
        status::REFUSED,
        b"error: end: NotFinished 2\n",
    ),
    (
        &["replay", "--session=4294967295"],
        status::REFUSED,
        b"error: end: NotFinished 4294967295\n",
    ),
    (
        &["report"],
        status::REFUSED,
        b"error: offset 0: Truncated\n",
    ),
    (
        &["gen", "0", "1"],
        status::DONE,
        b"gen          0          1\nsession          1          1          1          0\nsession          2          0          0          0\n",
    ),
];

#[test]
fn good_words_are_carried_out(rt: HostRuntime) -> Result<(), Fail> {
    for (words, wanted, want) in GOOD_WORDS {
        let (status, text) = run(rt.alloc(), &call_of(words, b""))?;
        assert_eq!(rt; (status, text.as_slice()), (wanted, want));
    }
    Ok(())
}
