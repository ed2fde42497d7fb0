//! Strangers who call this program's `greet`: with as many bytes of who they are as there are, and with others.
use super::scene::{Part, meet};
use pt_command::status;
use std::sync::Wait;
use std::thread::Threads;
use std::time::Clock as Timer;

// The bytes with which a program of process id 1 says who it is, whose cookie is of zeros.
const ADVERT: [u8; 34] = *b"ADVR_V1\0\0\0\0\0\0\0\0\0\0\0\0\0\0\0\0\0\x01\0\0\0\0\0\0\0\0\0";

// Whether `greet` says of a stranger, who sends these bytes and no more, that they are wrong at this offset.
fn is_refused<R: Threads + Wait + Timer + Sync>(
    threads: &R,
    rt: HostRuntime,
    bytes: &[u8],
    at: usize,
) -> bool {
    let Ok(line) = format!(in rt.alloc(); "error: reply at {at}\n") else {
        return false;
    };
    let parts = [
        Part::Writes {
            behind: 0,
            words: &["greet", "@"],
            status: status::BAD_REPLY,
            written: line.as_bytes(),
        },
        Part::Sends(bytes),
    ];
    meet(threads, rt, "stranger", None, &parts).is_none()
}

// The first number of bytes with which a stranger is not refused where they end. With all of them it is asked, and its reply has
// no byte.
fn first_number_let_in<R: Threads + Wait + Timer + Sync>(
    threads: &R,
    rt: HostRuntime,
) -> Option<usize> {
    (0..=ADVERT.len()).find(|there| {
        let at = if *there < ADVERT.len() { *there } else { 0 };
        !is_refused(threads, rt, ADVERT.get(..*there).unwrap_or(&[]), at)
    })
}

#[test]
fn a_stranger_who_does_not_say_who_it_is_is_refused(rt: HostRuntime) {
    assert_eq!(rt; first_number_let_in(&rt, rt), None);
}

#[test]
fn a_stranger_of_another_protocol_is_refused(rt: HostRuntime) {
    assert!(rt; is_refused(&rt, rt, b"GET / HTTP/1.1", 0));
}
