//! Sessions that are open nowhere.
use super::scene::begin;
use ep_stream::{Fate, SessionEnd};
use nt_write::Fault;
use pt_io::MemSink;
use std::alloc::Global;

// A session that ends as soon as it has started.
fn started(
    alloc: Global,
    sink: MemSink,
    fate: Fate,
) -> Result<SessionEnd<MemSink>, (MemSink, Fault)> {
    match begin(alloc, sink, b"reply", 1, false, 4) {
        Ok(session) => Ok(session.finish(alloc, 9, fate, &[])),
        Err(failed) => Err(failed),
    }
}

// Of a session that has ended: its id, slot and connection, how many marks it has, and its fate.
type Left = (u64, u32, u32, usize, Fate);

// What the bytes of a sink begin with and end with, and how many there are.
type Taken = (&'static [u8], &'static [u8], usize);

fn is_taken(bytes: &[u8], (head, tail, len): Taken) -> bool {
    bytes.starts_with(head) && bytes.ends_with(tail) && bytes.len() == len
}

// What is left of the session, or why it did not start, and whether its sink took this.
fn left(
    ended: Result<SessionEnd<MemSink>, (MemSink, Fault)>,
    taken: Taken,
) -> (Result<Left, Fault>, bool) {
    match ended {
        Ok(end) => {
            let marks = end.marks.as_slice().len();
            let left = (end.id, end.slot, end.conn, marks, end.fate);
            (Ok(left), is_taken(end.sink.taken(), taken))
        }
        Err((sink, fault)) => (Err(fault), is_taken(sink.taken(), taken)),
    }
}

// The same of a session whose sink fails at this write, the first being 1, and takes then two bytes.
fn left_after(
    alloc: Global,
    fails: u64,
    fate: Fate,
    taken: Taken,
) -> Option<(Result<Left, Fault>, bool)> {
    match Vec::from_array(alloc, [fails]) {
        Ok(fails) => Some(left(started(alloc, MemSink::partial(fails, 2), fate), taken)),
        Err(_) => None,
    }
}

#[test]
fn the_stream_stands_behind_the_reply(rt: HostRuntime) {
    let fate = Fate::Requested { conn: 8 };
    // Behind the reply's 5 bytes the stream begins with 102, its point without threads has 43, and its end one.
    let taken = (b"replyNettrace".as_slice(), b"\x06\x01".as_slice(), 151);
    let left = left_after(rt.alloc(), 0, fate, taken);
    assert_eq!(rt; left, Some((Ok((5, 3, 7, 0, fate)), true)));
}

#[test]
fn a_reply_that_fails_begins_no_stream(rt: HostRuntime) {
    let taken = (b"re".as_slice(), b"".as_slice(), 2);
    let left = left_after(rt.alloc(), 1, Fate::ProgramEnd, taken);
    assert_eq!(rt; left, Some((Err(Fault::WriteFault), true)));
}

#[test]
fn a_session_whose_link_failed_ends_so(rt: HostRuntime) {
    let taken = (b"replyNettrace".as_slice(), b"".as_slice(), 109);
    let left = left_after(rt.alloc(), 3, Fate::ProgramEnd, taken);
    assert_eq!(rt; left, Some((Ok((5, 3, 7, 0, Fate::LinkFault)), true)));
}
