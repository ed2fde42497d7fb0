use crate::tests::program::{PARTS, PROGRAM, parts_of};
use ep_defs::{Rule, Units};
use ipc_body::{Asked, collect_size};
use ipc_call::{CallFault, collect, info, stop};
use pt_io::{MemLink, MemSink, MemSource};
use std::alloc::{AllocError, Global};
use std::test::Fail;

// The replies and the request of the worked examples, byte by byte.
const SESSION: [u8; 28] = *b"DOTNET_IPC_V1\0\x1c\0\xff\0\0\0\x01\0\0\0\0\0\0\0";

const REFUSED: [u8; 24] = *b"DOTNET_IPC_V1\0\x18\0\xff\xff\0\0\x05\x40\0\x80";

const COLLECT: [u8; 57] =
    *b"DOTNET_IPC_V1\0\x39\0\x02\x03\0\0\x01\0\0\0\x01\0\0\0\0\x01\0\0\0\x01\0\0\0\0\0\0\0\x04\0\0\0\x02\0\0\0P\0\0\0\0\0\0\0";

// The reply about session 1 with a byte over, which its size counts.
const LONGER: [u8; 29] = *b"DOTNET_IPC_V1\0\x1d\0\xff\0\0\0\x01\0\0\0\0\0\0\0\0";

// What a call answered.
type Answer = Result<u64, CallFault>;

const REFUSAL: Answer = Err(CallFault::PeerError { code: 0x8000_4005 });

// The reply about session 1, and a stream of 40 bytes.
fn session_and_stream() -> [u8; 68] {
    let mut bytes = [7; 68];
    bytes[..28].copy_from_slice(&SESSION);
    bytes
}

// A link that gives these bytes, this many at most in a read. The read and the write with these numbers, from 1, fail.
fn link_of(
    alloc: Global,
    bytes: &[u8],
    most: usize,
    read: u64,
    write: u64,
) -> Result<MemLink, AllocError> {
    let source = MemSource::new(bytes.to_vec(alloc)?, most.max(1), [read].to_vec(alloc)?);
    Ok(MemLink::new(source, MemSink::new([write].to_vec(alloc)?)))
}

// Asks for a session of one megabyte with the rule `P:1:4`.
fn ask(alloc: Global, link: &mut MemLink, output: &mut MemSink) -> Answer {
    let rules = [Rule {
        name: Units::new([80].to_vec(alloc)?),
        keywords: 1,
        level: 4,
    }];
    let asked = Asked {
        megabytes: 1,
        rules: &rules,
    };
    if collect_size(&asked).is_none() {
        return Err(CallFault::OutOfMemory);
    }
    collect(alloc, link, &asked, output)
}

// What the call answered, what its link took, and what the output took.
#[derive(Drop)]
struct Told {
    answer: Answer,
    request: Vec<u8>,
    output: Vec<u8>,
}

fn tell(
    alloc: Global,
    answer: Answer,
    link: &MemLink,
    output: &MemSink,
) -> Result<Told, AllocError> {
    let request = link.taken().to_vec(alloc)?;
    let output = output.taken().to_vec(alloc)?;
    Ok(Told {
        answer,
        request,
        output,
    })
}

// Asks for it over a link of these bytes. The read of the link and the write of the output with these numbers fail.
fn collected(
    alloc: Global,
    bytes: &[u8],
    most: usize,
    read: u64,
    write: u64,
) -> Result<Told, AllocError> {
    let mut link = link_of(alloc, bytes, most, read, 0)?;
    let mut output = MemSink::new([write].to_vec(alloc)?);
    let answer = ask(alloc, &mut link, &mut output);
    tell(alloc, answer, &link, &output)
}

// The answer alone.
fn answer_to(alloc: Global, bytes: &[u8], read: u64, write: u64) -> Result<Answer, AllocError> {
    let told = collected(alloc, bytes, 10, read, write)?;
    Ok(told.answer)
}

// The answer, and how many bytes the output took.
fn answer_and_length(
    alloc: Global,
    bytes: &[u8],
    most: usize,
) -> Result<(Answer, usize), AllocError> {
    let told = collected(alloc, bytes, most, 0, 0)?;
    Ok((told.answer, told.output.len()))
}

// The same for a session's stream of this many bytes.
fn answer_of_stream(alloc: Global, count: usize) -> Result<(Answer, usize), AllocError> {
    let mut bytes = SESSION.to_vec(alloc)?;
    bytes.resize(count, 7)?;
    answer_and_length(alloc, &bytes, 65_536)
}

#[test]
fn collect_sends_57_bytes_and_copies_the_stream(rt: HostRuntime) -> Result<(), Fail> {
    let told = collected(rt.alloc(), &session_and_stream(), 10, 0, 0)?;
    assert_eq!(rt;
        (told.answer, told.request.as_slice(), told.output.as_slice()),
        (Ok(1), COLLECT.as_slice(), [7; 40].as_slice())
    );
    Ok(())
}

#[test]
fn a_stream_of_ten_megabytes_is_copied(rt: HostRuntime) -> Result<(), Fail> {
    let told = answer_of_stream(rt.alloc(), 10_000_028)?;
    assert_eq!(rt; told, (Ok(1), 10_000_000));
    Ok(())
}

#[test]
fn nothing_is_copied_after_an_error_reply(rt: HostRuntime) -> Result<(), Fail> {
    let told = answer_and_length(rt.alloc(), &REFUSED, 10)?;
    assert_eq!(rt; told, (REFUSAL, 0));
    Ok(())
}

// The answer where the call with this number fails, if the call with the last number is never made.
fn want_of(number: u64, last: u64, fault: CallFault) -> Answer {
    if number < last { Err(fault) } else { Ok(1) }
}

// The eighth read finds the end of the link's bytes, and the fourth write has the last of the stream.
#[test]
fn each_read_and_write_of_a_session_fails_in_turn(rt: HostRuntime) -> Result<(), Fail> {
    let bytes = session_and_stream();
    for number in 1..=9 {
        let read = answer_to(rt.alloc(), &bytes, number, 0)?;
        let write = answer_to(rt.alloc(), &bytes, 0, number)?;
        assert_eq!(rt;
            [read, write],
            [
                want_of(number, 9, CallFault::LinkFault),
                want_of(number, 5, CallFault::WriteFault)
            ]
        );
    }
    Ok(())
}

// Asks for the end of the session of this id over a link of these bytes, whose write with this number fails. It tells the
// answer, and what the link took.
fn stopped(
    alloc: Global,
    bytes: &[u8],
    id: u64,
    write: u64,
) -> Result<(Answer, Vec<u8>), AllocError> {
    let mut link = link_of(alloc, bytes, 10, 0, write)?;
    let answer = stop(alloc, &mut link, id);
    Ok((answer, link.taken().to_vec(alloc)?))
}

fn stop_answer(alloc: Global, bytes: &[u8], id: u64, write: u64) -> Result<Answer, AllocError> {
    let told = stopped(alloc, bytes, id, write)?;
    Ok(told.0)
}

#[test]
fn a_stop_is_answered_with_the_replys_id(rt: HostRuntime) -> Result<(), Fail> {
    let (answer, request) = stopped(rt.alloc(), &SESSION, 7, 0)?;
    let want = b"DOTNET_IPC_V1\0\x1c\0\x02\x01\0\0\x07\0\0\0\0\0\0\0";
    assert_eq!(rt; (answer, request.as_slice()), (Ok(1), want.as_slice()));
    Ok(())
}

// A reply with a byte over is bad there, an error reply is the peer's error, and a request that is not written is a fault.
#[test]
fn a_stop_says_why_it_has_no_answer(rt: HostRuntime) -> Result<(), Fail> {
    let table: [(&[u8], u64, u64, Answer); 3] = [
        (&LONGER, 1, 0, Err(CallFault::BadReply { at: 28 })),
        (&REFUSED, 7, 0, REFUSAL),
        (&SESSION, 1, 1, Err(CallFault::LinkFault)),
    ];
    for (bytes, id, write, want) in table {
        assert_eq!(rt; stop_answer(rt.alloc(), bytes, id, write)?, want);
    }
    Ok(())
}

#[test]
fn a_reply_cut_short_is_bad_at_its_end(rt: HostRuntime) -> Result<(), Fail> {
    for count in 0..28 {
        let answer = stop_answer(rt.alloc(), &SESSION[..count], 1, 0)?;
        let at = count as u64;
        assert_eq!(rt; answer, Err(CallFault::BadReply { at }));
    }
    Ok(())
}

// Asks a program what it is. It tells the answer's parts.
fn parts_said(alloc: Global, link: &mut MemLink) -> Result<Vec<u64>, CallFault> {
    let program = info(alloc, link)?;
    Ok(parts_of(alloc, &program)?)
}

// The parts that a program that answers with these bytes says, and what its link took.
fn described(alloc: Global, bytes: &[u8]) -> Result<(Vec<u64>, Vec<u8>), CallFault> {
    let mut link = link_of(alloc, bytes, 10, 0, 0)?;
    let parts = parts_said(alloc, &mut link)?;
    Ok((parts, link.taken().to_vec(alloc)?))
}

// Why a program that answers with these bytes says nothing of itself.
fn info_fault(alloc: Global, bytes: &[u8]) -> Result<Option<CallFault>, AllocError> {
    let mut link = link_of(alloc, bytes, 10, 0, 0)?;
    Ok(info(alloc, &mut link).err())
}

#[test]
fn a_program_says_what_it_is(rt: HostRuntime) -> Result<(), Fail> {
    let (parts, request) = described(rt.alloc(), &PROGRAM)?;
    assert_eq!(rt;
        (parts.as_slice(), request.as_slice()),
        (
            PARTS.as_slice(),
            b"DOTNET_IPC_V1\0\x14\0\x04\0\0\0".as_slice()
        )
    );
    Ok(())
}

#[test]
fn a_programs_reply_cut_short_is_bad_at_its_end(rt: HostRuntime) -> Result<(), Fail> {
    for count in 0..78 {
        let fault = info_fault(rt.alloc(), &PROGRAM[..count])?;
        let at = count as u64;
        assert_eq!(rt; fault, Some(CallFault::BadReply { at }));
    }
    Ok(())
}

// What is wrong with the reply of 78 bytes where its header says this size: below the header's own 20 bytes the size, and else
// the place where the bytes or the fields end.
fn fault_of_size(size: u8) -> Option<CallFault> {
    match size {
        78 => None,
        0..20 => Some(CallFault::BadReply { at: 14 }),
        _ => Some(CallFault::BadReply {
            at: u64::from(size.min(78)),
        }),
    }
}

#[test]
fn a_programs_reply_with_another_size_is_bad_there(rt: HostRuntime) -> Result<(), Fail> {
    let mut bytes = PROGRAM;
    for size in 0..=255 {
        bytes[14] = size;
        assert_eq!(rt; info_fault(rt.alloc(), &bytes)?, fault_of_size(size));
    }
    Ok(())
}
