//! Reading a header.
ghost use Rattle.std.specs.Prelude.{◌≡◌, ◌+◌, ◌%◌, ◌^◌, ◌<◌, ◌≤◌, ◌==◌, ◌||◌, if◌then◌else◌, length, take, IfSome, IfOk, IfErr, OnOk};
ghost use Rattle.std.specs.Int.{w32, w64};
ghost use Rattle.pt_num.specs.Fields.{var_at, bytes_at};
ghost use Rattle.nt_head.specs.Head.{IsHead};
ghost use Rattle.nt_head.specs.declared.flags.TheConstants.{SEQUENCE, SORTED};
ghost use Rattle.nt_head.specs.Reading.{has_flag, head_at, if_set, sequence_at, IfHead, TakesHead};
ghost use Rattle.nt_head.specs.Places.{Reads, ReadsNew, ReadsSequence, Stops};

use crate::flags::{ACTIVITY, METADATA, RELATED, SEQUENCE, SIZE, SORTED, STACK, THREAD};
use crate::head::HeadState;
use crate::limits::ID_BYTES;
use pt_num::limits::GROUP;
use pt_num::{Taken, take_var32, take_var64};

/// The header at the front of some bytes.
#[derive(Clone, Copy, Debug, PartialEq, Eq)]
pub enum TakenHead {
    /// What it says, and the number of its bytes.
    Head { state: HeadState, used: usize },
    /// The bytes end before the header does.
    Short,
    /// The varuint at this offset in the bytes doesn't fit its type.
    BadVar { at: usize },
}

// Bytes of the longest varuint that is read in place.
const SHORT_BYTES: usize = 3;

/// Why a header can't be read to its end.
#[derive(Clone, Copy, Debug, PartialEq, Eq, Drop)]
pub enum HeadStop {
    /// The bytes end before the header does.
    Short,
    /// The varuint at this offset in the bytes doesn't fit its type.
    BadVar { at: usize },
}

/// What the header at the front of the bytes says, after a blob that said `previous`. It takes no memory.
pub fn take_head(bytes: &[u8], previous: &HeadState) -> TakenHead
    ensures read { TakesHead (head_at previous.now bytes.now) bytes.now result }
    ensures form { IfHead result (λ state used. IsHead previous.now state (take used bytes.now)) }
{
    let mut state = *previous;
    match take_next(bytes, &mut state) {
        Ok(used) => TakenHead::Head { state, used },
        Err(HeadStop::Short) => TakenHead::Short,
        Err(HeadStop::BadVar { at }) => TakenHead::BadVar { at },
    }
}

/// Reads the header at the front of the bytes into the state of the blob before it, and answers the number of its
/// bytes. It takes no memory.
///
/// After a stop the state may have some of the new parts.
pub fn take_next(bytes: &[u8], state: &mut HeadState) -> Result<usize, HeadStop>
    ensures ok { IfOk result (λ used. Reads (head_at state.old) bytes.now 0 used state.new) }
    ensures stop { IfErr result (λ stop. Stops (head_at state.old) bytes.now 0 stop) }
{
    if bytes.is_empty() {
        return Err(HeadStop::Short);
    }
    let flags = bytes[0];
    if !is_usual(flags) {
        return take_fields(bytes, state);
    }
    let mut at = 1;
    let increment = next64(bytes, &mut at)?;
    state.number = number_after(state.metadata, state.number, 0);
    state.stamp = state.stamp.wrapping_add(increment);
    state.sorted = has_flag(flags, SORTED);
    Ok(at)
}

// The same of any header. It stands apart, so that the usual one needs few registers.
#[inline(never)]
fn take_fields(bytes: &[u8], state: &mut HeadState) -> Result<usize, HeadStop>
    requires { 0 < length bytes.now }
    ensures ok { IfOk result (λ used. Reads (head_at state.old) bytes.now 0 used state.new) }
    ensures stop { IfErr result (λ stop. Stops (head_at state.old) bytes.now 0 stop) }
{
    let flags = bytes[0];
    let mut at = 1;
    set32(bytes, &mut at, flags, METADATA, &mut state.metadata)?;
    let numbers = new_numbers(bytes, &mut at, flags, state.metadata, state)?;
    state.number = numbers.number;
    state.capture = numbers.capture;
    state.processor = numbers.processor;
    set64(bytes, &mut at, flags, THREAD, &mut state.thread)?;
    set32(bytes, &mut at, flags, STACK, &mut state.stack)?;
    let increment = next64(bytes, &mut at)?;
    state.stamp = state.stamp.wrapping_add(increment);
    set_id(bytes, &mut at, flags, ACTIVITY, &mut state.activity)?;
    set_id(bytes, &mut at, flags, RELATED, &mut state.related)?;
    set32(bytes, &mut at, flags, SIZE, &mut state.size)?;
    state.sorted = has_flag(flags, SORTED);
    Ok(at)
}

// Whether no field but the stamp is there: the blob is of an event that follows one of the same thread.
#[inline(always)]
fn is_usual(flags: u8) -> bool
    ensures { result ≡ (flags == 0 || flags == SORTED) }
{
    flags == 0 || flags == SORTED
}

// The parts of a state that one flag announces together.
#[derive(Clone, Copy, Drop)]
struct Numbers {
    number: u32,
    capture: u64,
    processor: u32,
}

// Whether the flag that is worth this much is set.
#[inline(always)]
fn has_flag(flags: u8, worth: u8) -> bool
    requires { 0 < worth }
    ensures { result ≡ has_flag worth flags }
{
    flags / worth % 2 == 1
}

// A varuint, and the place behind it.
#[derive(Clone, Copy, Drop)]
struct Placed<T> {
    value: T,
    end: usize,
}

// The varuint at this place, after which the place moves.
#[inline(always)]
fn next32(bytes: &[u8], at: &mut usize) -> Result<u32, HeadStop>
    requires { at.old ≤ length bytes.now }
    ensures ok { IfOk result (λ value. Reads (var_at w32) bytes.now at.old at.new value) }
    ensures stop { IfErr result (λ stop. Stops (var_at w32) bytes.now at.old stop) }
{
    if let Some(Placed { value, end }) = short_var(bytes, *at) {
        *at = end;
        return Ok(value);
    }
    let Placed { value, end } = long32(bytes, *at)?;
    *at = end;
    Ok(value)
}

#[inline(always)]
fn next64(bytes: &[u8], at: &mut usize) -> Result<u64, HeadStop>
    requires { at.old ≤ length bytes.now }
    ensures ok { IfOk result (λ value. Reads (var_at w64) bytes.now at.old at.new value) }
    ensures stop { IfErr result (λ stop. Stops (var_at w64) bytes.now at.old stop) }
{
    if let Some(Placed { value, end }) = short_var(bytes, *at) {
        *at = end;
        return Ok(value as u64);
    }
    let Placed { value, end } = long64(bytes, *at)?;
    *at = end;
    Ok(value)
}

// The varuint at this place, if it has one byte, or if it has two or three and three are there.
#[inline(always)]
fn short_var(bytes: &[u8], at: usize) -> Option<Placed<u32>>
    requires { at ≤ length bytes.now }
    ensures narrow { IfSome result (λ short. Reads (var_at w32) bytes.now at short.end short.value) }
    ensures wide { IfSome result (λ short. Reads (var_at w64) bytes.now at short.end short.value) }
{
    if at == bytes.len() {
        return None;
    }
    let first = bytes[at];
    if first < GROUP {
        let value = first as u32;
        return Some(Placed { value, end: at + 1 });
    }
    if bytes.len() - at < SHORT_BYTES {
        return None;
    }
    let low = (first % GROUP) as u32;
    let second = bytes[at + 1];
    if second < GROUP {
        let value = low + GROUP as u32 * second as u32;
        return Some(Placed { value, end: at + 2 });
    }
    let third = bytes[at + 2];
    if third < GROUP {
        let high = (second % GROUP) as u32 + GROUP as u32 * third as u32;
        let value = low + GROUP as u32 * high;
        return Some(Placed { value, end: at + 3 });
    }
    None
}

// A varuint of any length. The place is handed over by value, so that it stays in a register elsewhere.
#[inline(never)]
fn long32(bytes: &[u8], at: usize) -> Result<Placed<u32>, HeadStop>
    requires { at ≤ length bytes.now }
    ensures ok { IfOk result (λ long. Reads (var_at w32) bytes.now at long.end long.value) }
    ensures stop { IfErr result (λ stop. Stops (var_at w32) bytes.now at stop) }
{
    match take_var32(&bytes[at..]) {
        Taken::Value { value, used } => Ok(Placed {
            value,
            end: at + used,
        }),
        Taken::Short => Err(HeadStop::Short),
        Taken::TooWide => Err(HeadStop::BadVar { at }),
    }
}

#[inline(never)]
fn long64(bytes: &[u8], at: usize) -> Result<Placed<u64>, HeadStop>
    requires { at ≤ length bytes.now }
    ensures ok { IfOk result (λ long. Reads (var_at w64) bytes.now at long.end long.value) }
    ensures stop { IfErr result (λ stop. Stops (var_at w64) bytes.now at stop) }
{
    match take_var64(&bytes[at..]) {
        Taken::Value { value, used } => Ok(Placed {
            value,
            end: at + used,
        }),
        Taken::Short => Err(HeadStop::Short),
        Taken::TooWide => Err(HeadStop::BadVar { at }),
    }
}

// Reads a field where it is there. An absent one keeps its value.
#[inline(always)]
fn set32(
    bytes: &[u8],
    at: &mut usize,
    flags: u8,
    worth: u8,
    field: &mut u32,
) -> Result<(), HeadStop>
    requires within { at.old ≤ length bytes.now }
    requires some { 0 < worth }
    ensures ok { OnOk result (ReadsNew (has_flag worth flags) (var_at w32) bytes.now at.old at.new field.old field.new) }
    ensures stop { IfErr result (λ stop. Stops (if_set (has_flag worth flags) (var_at w32)) bytes.now at.old stop) }
{
    if !has_flag(flags, worth) {
        return Ok(());
    }
    *field = next32(bytes, at)?;
    Ok(())
}

#[inline(always)]
fn set64(
    bytes: &[u8],
    at: &mut usize,
    flags: u8,
    worth: u8,
    field: &mut u64,
) -> Result<(), HeadStop>
    requires within { at.old ≤ length bytes.now }
    requires some { 0 < worth }
    ensures ok { OnOk result (ReadsNew (has_flag worth flags) (var_at w64) bytes.now at.old at.new field.old field.new) }
    ensures stop { IfErr result (λ stop. Stops (if_set (has_flag worth flags) (var_at w64)) bytes.now at.old stop) }
{
    if !has_flag(flags, worth) {
        return Ok(());
    }
    *field = next64(bytes, at)?;
    Ok(())
}

#[inline(always)]
fn set_id(
    bytes: &[u8],
    at: &mut usize,
    flags: u8,
    worth: u8,
    field: &mut [u8; 16],
) -> Result<(), HeadStop>
    requires within { at.old ≤ length bytes.now }
    requires some { 0 < worth }
    ensures ok { OnOk result (ReadsNew (has_flag worth flags) (bytes_at ID_BYTES) bytes.now at.old at.new field.old field.new) }
    ensures stop { IfErr result (λ stop. Stops (if_set (has_flag worth flags) (bytes_at ID_BYTES)) bytes.now at.old stop) }
{
    if !has_flag(flags, worth) {
        return Ok(());
    }
    if bytes.len() - *at < ID_BYTES {
        return Err(HeadStop::Short);
    }
    field.copy_from_slice(&bytes[*at..*at + ID_BYTES]);
    *at += ID_BYTES;
    Ok(())
}

// The number, the capture thread and the processor. The metadata id 0 uses no number.
#[inline(always)]
fn new_numbers(
    bytes: &[u8],
    at: &mut usize,
    flags: u8,
    metadata: u32,
    previous: &HeadState,
) -> Result<Numbers, HeadStop>
    requires { at.old ≤ length bytes.now }
    ensures ok { IfOk result (λ now. ReadsSequence (has_flag SEQUENCE flags) bytes.now at.old at.new metadata previous.now now) }
    ensures stop { IfErr result (λ stop. Stops (if_set (has_flag SEQUENCE flags) sequence_at) bytes.now at.old stop) }
{
    if has_flag(flags, SEQUENCE) {
        let increment = next32(bytes, at)?;
        let capture = next64(bytes, at)?;
        let processor = next32(bytes, at)?;
        return Ok(Numbers {
            number: number_after(metadata, previous.number, increment),
            capture,
            processor,
        });
    }
    Ok(Numbers {
        number: number_after(metadata, previous.number, 0),
        capture: previous.capture,
        processor: previous.processor,
    })
}

#[inline(always)]
fn number_after(metadata: u32, previous: u32, increment: u32) -> u32
    ensures { result ≡ (if metadata == 0 then previous else (previous + increment + 1) % 2 ^ 32) }
{
    if metadata == 0 {
        previous
    } else {
        previous.wrapping_add(increment).wrapping_add(1)
    }
}
