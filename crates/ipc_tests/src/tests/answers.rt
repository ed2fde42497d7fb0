//! The answers to requests as they stand on a connection, byte by byte.

use ep_defs::{Facts, Items, Units, standard_info};
use ep_table::{StopTicket, Table};
use ipc_serve::codes::{BAD_ENCODING, REFUSED, UNKNOWN_COMMAND, UNKNOWN_MAGIC};
use ipc_serve::{Action, decide};
use std::alloc::{AllocError, Global};

// CollectTracing2 for 256 megabytes and a rundown, with three providers.
const COLLECT: [u8; 175] =
    *b"\x44\x4f\x54\x4e\x45\x54\x5f\x49\x50\x43\x5f\x56\x31\x00\xaf\x00\x02\x03\x00\x00\x00\x01\x00\x00\x01\x00\x00\x00\x01\x03\x00\x00\x00\xff\xff\xff\xff\xff\xff\xff\xff\x05\x00\x00\x00\x0b\x00\x00\x00\x53\x00\x61\x00\x6d\x00\x70\x00\x6c\x00\x65\x00\x2d\x00\x57\x00\x65\x00\x62\x00\x00\x00\x00\x00\x00\x00\x01\x00\x00\x00\x00\x00\x00\x00\x04\x00\x00\x00\x0d\x00\x00\x00\x53\x00\x61\x00\x6d\x00\x70\x00\x6c\x00\x65\x00\x2d\x00\x53\x00\x74\x00\x6f\x00\x72\x00\x65\x00\x00\x00\x00\x00\x00\x00\xff\xff\xff\xff\xff\xff\xff\xff\x05\x00\x00\x00\x11\x00\x00\x00\x55\x00\x6e\x00\x6b\x00\x6e\x00\x6f\x00\x77\x00\x6e\x00\x2d\x00\x50\x00\x72\x00\x6f\x00\x76\x00\x69\x00\x64\x00\x65\x00\x72\x00\x00\x00\x00\x00\x00\x00";

const INFO: [u8; 20] = *b"DOTNET_IPC_V1\0\x14\0\x04\0\0\0";

const STOP: [u8; 28] = *b"DOTNET_IPC_V1\0\x1c\0\x02\x01\0\0\x01\0\0\0\0\0\0\0";

// A process without a command line, on linux and x64.
const DESCRIPTION: [u8; 78] =
    *b"\x44\x4f\x54\x4e\x45\x54\x5f\x49\x50\x43\x5f\x56\x31\x00\x4e\x00\xff\x00\x00\x00\x01\x00\x00\x00\x00\x00\x00\x00\x00\x01\x02\x03\x04\x05\x06\x07\x08\x09\x0a\x0b\x0c\x0d\x0e\x0f\x01\x00\x00\x00\x00\x00\x06\x00\x00\x00\x6c\x00\x69\x00\x6e\x00\x75\x00\x78\x00\x00\x00\x04\x00\x00\x00\x78\x00\x36\x00\x34\x00\x00\x00";

const SESSION_1: [u8; 28] = *b"DOTNET_IPC_V1\0\x1c\0\xff\0\0\0\x01\0\0\0\0\0\0\0";

fn units(alloc: Global, text: &[u8]) -> Result<Units, AllocError> {
    let mut units = Vec::new(alloc);
    for byte in text {
        units.push(u16::from(*byte))?;
    }
    Ok(Items::new(units))
}

// What a process whose facts are those of the description answered, without what it keeps: the bytes of its reply; of a session
// its slot, id and chunks, whether it walks stacks and has a rundown, and its rules; of a stop its ticket; of an error its code.
#[derive(Debug, PartialEq, Eq, Drop)]
enum Answer {
    Info(Vec<u8>),
    Start(u32, u64, u32, [bool; 2], usize, [u8; 28]),
    Stop(StopTicket, [u8; 28]),
    Error(u32),
}

fn answer_to(alloc: Global, table: &mut Table, bytes: &[u8]) -> Result<Answer, AllocError> {
    let facts = facts(alloc)?;
    if table.next() > 1000 || !facts.is_valid() {
        return Err(AllocError);
    }
    match decide(alloc, table, &facts, 7, bytes) {
        Action::Info { reply } => Ok(Answer::Info(reply.as_slice().to_vec(alloc)?)),
        Action::Start {
            slot,
            id,
            config,
            reply,
        } => {
            let walks = [config.stackwalk, config.rundown];
            let rules = config.rules.as_slice().len();
            Ok(Answer::Start(slot, id, config.chunks, walks, rules, reply))
        }
        Action::Stop { ticket, reply } => Ok(Answer::Stop(ticket, reply)),
        Action::Error { code, .. } => Ok(Answer::Error(code)),
    }
}

fn facts(alloc: Global) -> Result<Facts, AllocError> {
    Ok(Facts {
        process_id: 1,
        cookie: [0, 1, 2, 3, 4, 5, 6, 7, 8, 9, 10, 11, 12, 13, 14, 15],
        command_line: units(alloc, b"")?,
        system: units(alloc, b"linux")?,
        arch: units(alloc, b"x64")?,
        info: standard_info(1, 1),
    })
}

// The code with which these bytes are refused, or 0, and the next session's id then.
fn code(alloc: Global, table: &mut Table, bytes: &[u8]) -> Result<(u32, u64), AllocError> {
    match answer_to(alloc, table, bytes)? {
        Answer::Error(code) => Ok((code, table.next())),
        _ => Ok((0, table.next())),
    }
}

#[test]
fn a_process_describes_itself(rt: HostRuntime) -> Result<(), AllocError> {
    let wanted = Answer::Info(DESCRIPTION.to_vec(rt.alloc())?);
    assert_eq!(rt; answer_to(rt.alloc(), &mut Table::new(), &INFO)?, wanted);
    Ok(())
}

#[test]
fn a_session_begins_and_is_stopped_once(rt: HostRuntime) -> Result<(), AllocError> {
    let mut table = Table::new();
    let ticket = StopTicket {
        id: 1,
        slot: 0,
        conn: 7,
    };
    let steps: [(&[u8], Answer); 3] = [
        (
            &COLLECT,
            Answer::Start(0, 1, 4096, [true, true], 3, SESSION_1),
        ),
        (&STOP, Answer::Stop(ticket, SESSION_1)),
        (&STOP, Answer::Error(REFUSED)),
    ];
    for (bytes, wanted) in steps {
        assert_eq!(rt; answer_to(rt.alloc(), &mut table, bytes)?, wanted);
    }
    Ok(())
}

// The request in the third form, which says that no stacks are wanted.
fn without_stacks(alloc: Global) -> Result<Vec<u8>, AllocError> {
    let mut request = COLLECT[..14].to_vec(alloc)?;
    request.extend_from_slice(&[176, 0, 2, 4])?;
    request.extend_from_slice(&COLLECT[18..29])?;
    request.push(0)?;
    request.extend_from_slice(&COLLECT[29..])?;
    Ok(request)
}

#[test]
fn the_third_form_says_whether_stacks_are_wanted(rt: HostRuntime) -> Result<(), AllocError> {
    let request = without_stacks(rt.alloc())?;
    let wanted = Answer::Start(0, 1, 4096, [false, true], 3, SESSION_1);
    assert_eq!(rt; answer_to(rt.alloc(), &mut Table::new(), &request)?, wanted);
    Ok(())
}

// How many of 64 requests began a session, what the 65th was refused with, and how many sessions hold a slot.
fn filled(alloc: Global) -> Result<(u32, (u32, u64), u32), AllocError> {
    let mut table = Table::new();
    let mut begun = 0u32;
    for _ in 0..64u32 {
        if code(alloc, &mut table, &COLLECT)?.0 == 0 {
            begun = begun.saturating_add(1);
        }
    }
    let last = code(alloc, &mut table, &COLLECT)?;
    Ok((begun, last, table.held()))
}

#[test]
fn the_65th_session_is_refused(rt: HostRuntime) -> Result<(), AllocError> {
    assert_eq!(rt; filled(rt.alloc())?, (64, (REFUSED, 65), 64));
    Ok(())
}

#[test]
fn a_request_that_is_cut_is_badly_encoded(rt: HostRuntime) -> Result<(), AllocError> {
    let mut table = Table::new();
    for there in 0..175usize {
        let cut = &COLLECT[..there];
        assert_eq!(rt; code(rt.alloc(), &mut table, cut)?, (BAD_ENCODING, 1));
    }
    Ok(())
}

// The request with another byte in this place.
fn changed(place: usize, byte: u8) -> [u8; 175] {
    let mut other = COLLECT;
    if let Some(at) = other.get_mut(place) {
        *at = byte;
    }
    other
}

#[test]
fn one_changed_byte_changes_no_table_on_an_error(rt: HostRuntime) -> Result<(), AllocError> {
    for place in 0..175usize {
        for byte in [0u8, 1, 255] {
            let (code, next) = code(rt.alloc(), &mut Table::new(), &changed(place, byte))?;
            assert!(rt; code == 0 || next == 1);
        }
    }
    Ok(())
}

// Appends a provider whose name has this many units, the final zero among them.
fn put_provider(bytes: &mut Vec<u8>, units: usize) -> Result<(), AllocError> {
    let [low, high, ..] = units.to_le_bytes();
    bytes.extend_from_slice(&[255, 255, 255, 255, 255, 255, 255, 255, 5, 0, 0, 0])?;
    bytes.extend_from_slice(&[low, high, 0, 0])?;
    for place in 0..units {
        bytes.push(if place + 1 < units { b'P' } else { 0 })?;
        bytes.push(0)?;
    }
    bytes.extend_from_slice(&[0; 4])
}

// A request with 1,000 providers.
fn greatest(alloc: Global) -> Result<Vec<u8>, AllocError> {
    let mut bytes = Vec::new(alloc);
    bytes.extend_from_slice(
        b"DOTNET_IPC_V1\0\xff\xff\x02\x03\0\0\0\x01\0\0\x01\0\0\0\0\xe8\x03\0\0",
    )?;
    for _ in 0..999u32 {
        put_provider(&mut bytes, 22)?;
    }
    put_provider(&mut bytes, 773)?;
    Ok(bytes)
}

#[test]
fn a_request_of_65535_bytes_with_1000_providers_is_accepted(
    rt: HostRuntime,
) -> Result<(), AllocError> {
    let bytes = greatest(rt.alloc())?;
    let mut table = Table::new();
    assert_eq!(rt;
        (bytes.len(), code(rt.alloc(), &mut table, &bytes)?),
        (65_535, (0, 2))
    );
    // The same with a provider too few.
    let fewer = bytes.get(..65_471).unwrap_or_default();
    assert_eq!(rt; code(rt.alloc(), &mut table, fewer)?, (BAD_ENCODING, 2));
    Ok(())
}

#[test]
fn each_finding_has_its_code(rt: HostRuntime) -> Result<(), AllocError> {
    // Offset, byte, and the code of: another magic, a size of 19, the set 9, the budget 0, the format 0, no provider, 2^30
    // providers and more, an empty name, a name without its zero, and a name of more than 2^31 units.
    let findings = [
        (0usize, 0u8, UNKNOWN_MAGIC),
        (14, 19, BAD_ENCODING),
        (16, 9, UNKNOWN_COMMAND),
        (21, 0, BAD_ENCODING),
        (24, 0, BAD_ENCODING),
        (29, 0, BAD_ENCODING),
        (32, 64, BAD_ENCODING),
        (45, 0, BAD_ENCODING),
        (69, 1, BAD_ENCODING),
        (48, 255, BAD_ENCODING),
    ];
    for (place, byte, want) in findings {
        let refused = code(rt.alloc(), &mut Table::new(), &changed(place, byte))?;
        assert_eq!(rt; refused, (want, 1));
    }
    Ok(())
}
