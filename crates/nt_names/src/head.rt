//! Reading of a header what an event names.
ghost use Rattle.std.specs.Prelude.{◌≡◌, ◌+◌, ◌%◌, ◌^◌, ◌<◌, ◌≤◌, ◌==◌, if◌then◌else◌, length, IfSome, IsNone};
ghost use Rattle.std.specs.Int.{w32, w64};
ghost use Rattle.pt_num.specs.Fields.{var_at, bytes_at};
ghost use Rattle.nt_head.specs.Reading.{has_flag, if_set, sequence_at};
ghost use Rattle.nt_head.specs.Places.{Reads, ReadsNew};
ghost use Rattle.nt_names.specs.state.Heads.{Cuts, CutsHead, Passes, SkimsHead, SkimsSequence};

use nt_check::EventNames;
use nt_head::flags::{ACTIVITY, METADATA, RELATED, SEQUENCE, SIZE, STACK, THREAD};
use nt_head::limits::ID_BYTES;
use pt_num::limits::GROUP;
use pt_num::{Taken, take_var32, take_var64};

/// What the header of an event says of what it names, and the bytes of its payload.
#[derive(Clone, Copy, Drop)]
pub struct Head {
    pub names: EventNames,
    pub size: u32,
}

/// Before the first event.
pub const NOTHING: Head = Head {
    names: EventNames {
        metadata: 0,
        number: 0,
        capture: 0,
        stack: 0,
    },
    size: 0,
};

// The parts of the sequence that an event names.
#[derive(Clone, Copy, Drop)]
pub struct Sequence {
    number: u32,
    capture: u64,
}

/// What the header at the front of the bytes says after the previous one, if a whole one stands there. The place moves
/// behind it.
#[inline(always)]
pub fn read_head(bytes: &[u8], at: &mut usize, previous: &Head) -> Option<Head>
    requires { at.old ≡ 0 }
    ensures some { IfSome result (λ now. SkimsHead previous.now bytes.now at.new now) }
    ensures none { IsNone result → CutsHead bytes.now }
{
    if bytes.is_empty() {
        return None;
    }
    let flags = bytes[0];
    *at = 1;
    let metadata = new32(
        bytes,
        at,
        has_flag(flags, METADATA),
        previous.names.metadata,
    )?;
    if flags < SEQUENCE {
        // The usual event: it is of the same thread with the same stack, and as large.
        next64(bytes, at)?;
        let number = number_after(metadata, previous.names.number, 0);
        let names = EventNames {
            metadata,
            number,
            capture: previous.names.capture,
            stack: previous.names.stack,
        };
        return Some(Head {
            names,
            size: previous.size,
        });
    }
    let sequence = new_sequence(
        bytes,
        at,
        has_flag(flags, SEQUENCE),
        metadata,
        &previous.names,
    )?;
    pass64(bytes, at, has_flag(flags, THREAD))?;
    let stack = new32(bytes, at, has_flag(flags, STACK), previous.names.stack)?;
    next64(bytes, at)?;
    pass_id(bytes, at, has_flag(flags, ACTIVITY))?;
    pass_id(bytes, at, has_flag(flags, RELATED))?;
    let size = new32(bytes, at, has_flag(flags, SIZE), previous.size)?;
    let Sequence { number, capture } = sequence;
    let names = EventNames {
        metadata,
        number,
        capture,
        stack,
    };
    Some(Head { names, size })
}

// Whether the flag that is worth this much is set.
#[inline(always)]
fn has_flag(flags: u8, worth: u8) -> bool
    requires { 0 < worth }
    ensures { result ≡ has_flag worth flags }
{
    flags / worth % 2 == 1
}

// The varuint at this place, after which the place moves. Most have one byte.
#[inline(always)]
fn next32(bytes: &[u8], at: &mut usize) -> Option<u32>
    requires { at.old ≤ length bytes.now }
    ensures some { IfSome result (λ value. Reads (var_at w32) bytes.now at.old at.new value) }
    ensures none { IsNone result → Cuts (var_at w32) bytes.now at.old }
{
    if *at < bytes.len() && bytes[*at] < GROUP {
        let value = u32::from(bytes[*at]);
        *at += 1;
        return Some(value);
    }
    let Long { value, end } = long32(bytes, *at)?;
    *at = end;
    Some(value)
}

#[inline(always)]
fn next64(bytes: &[u8], at: &mut usize) -> Option<u64>
    requires { at.old ≤ length bytes.now }
    ensures some { IfSome result (λ value. Reads (var_at w64) bytes.now at.old at.new value) }
    ensures none { IsNone result → Cuts (var_at w64) bytes.now at.old }
{
    if *at < bytes.len() && bytes[*at] < GROUP {
        let value = u64::from(bytes[*at]);
        *at += 1;
        return Some(value);
    }
    let Long { value, end } = long64(bytes, *at)?;
    *at = end;
    Some(value)
}

// A varuint, and the place behind it.
#[derive(Clone, Copy, Drop)]
struct Long<T> {
    value: T,
    end: usize,
}

// The same, of any length. The place is handed over by value, so that it stays in a register elsewhere.
#[inline(never)]
fn long32(bytes: &[u8], at: usize) -> Option<Long<u32>>
    requires { at ≤ length bytes.now }
    ensures some { IfSome result (λ long. Reads (var_at w32) bytes.now at long.end long.value) }
    ensures none { IsNone result → Cuts (var_at w32) bytes.now at }
{
    match take_var32(&bytes[at..]) {
        Taken::Value { value, used } => Some(Long {
            value,
            end: at + used,
        }),
        Taken::Short => None,
        Taken::TooWide => None,
    }
}

#[inline(never)]
fn long64(bytes: &[u8], at: usize) -> Option<Long<u64>>
    requires { at ≤ length bytes.now }
    ensures some { IfSome result (λ long. Reads (var_at w64) bytes.now at long.end long.value) }
    ensures none { IsNone result → Cuts (var_at w64) bytes.now at }
{
    match take_var64(&bytes[at..]) {
        Taken::Value { value, used } => Some(Long {
            value,
            end: at + used,
        }),
        Taken::Short => None,
        Taken::TooWide => None,
    }
}

// The value of a field that may be absent, or else the previous one.
#[inline(always)]
fn new32(bytes: &[u8], at: &mut usize, there: bool, previous: u32) -> Option<u32>
    requires { at.old ≤ length bytes.now }
    ensures some { IfSome result (λ now. ReadsNew there (var_at w32) bytes.now at.old at.new previous now) }
    ensures none { IsNone result → Cuts (if_set there (var_at w32)) bytes.now at.old }
{
    if there {
        next32(bytes, at)
    } else {
        Some(previous)
    }
}

// Passes over a field that may be absent.
#[inline(always)]
fn pass64(bytes: &[u8], at: &mut usize, there: bool) -> Option<()>
    requires { at.old ≤ length bytes.now }
    ensures some { IfSome result (λ _. Passes there (var_at w64) bytes.now at.old at.new) }
    ensures none { IsNone result → Cuts (if_set there (var_at w64)) bytes.now at.old }
{
    if there {
        next64(bytes, at)?;
    }
    Some(())
}

#[inline(always)]
fn pass_id(bytes: &[u8], at: &mut usize, there: bool) -> Option<()>
    requires { at.old ≤ length bytes.now }
    ensures some { IfSome result (λ _. Passes there (bytes_at ID_BYTES) bytes.now at.old at.new) }
    ensures none { IsNone result → Cuts (if_set there (bytes_at ID_BYTES)) bytes.now at.old }
{
    if there {
        if bytes.len() - *at < ID_BYTES {
            return None;
        }
        *at += ID_BYTES;
    }
    Some(())
}

// The number and the capture thread. The metadata id 0 uses no number.
#[inline(always)]
fn new_sequence(
    bytes: &[u8],
    at: &mut usize,
    there: bool,
    metadata: u32,
    previous: &EventNames,
) -> Option<Sequence>
    requires { at.old ≤ length bytes.now }
    ensures some { IfSome result (λ now. SkimsSequence there bytes.now at.old at.new metadata previous.now now) }
    ensures none { IsNone result → Cuts (if_set there sequence_at) bytes.now at.old }
{
    if there {
        let increment = next32(bytes, at)?;
        let capture = next64(bytes, at)?;
        next32(bytes, at)?;
        return Some(Sequence {
            number: number_after(metadata, previous.number, increment),
            capture,
        });
    }
    Some(Sequence {
        number: number_after(metadata, previous.number, 0),
        capture: previous.capture,
    })
}

#[inline(always)]
fn number_after(metadata: u32, previous: u32, increment: u32) -> u32
    ensures { result ≡ (if metadata == 0 then previous else (previous + increment + 1) % 2 ^ 32) }
{
    if metadata == 0 {
        previous
    } else {
        previous.wrapping_add(increment).wrapping_add(1)
    }
}
