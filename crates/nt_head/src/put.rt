//! Writing a header.
ghost use Rattle.std.specs.Prelude.{◌≡◌, ◌+◌, ◌-◌, ◌%◌, ◌^◌, ◌≤◌, ◌++◌, length, nat_eq, is_some, IsTrue, IsOk, IfOk, OnOk, OnErr, vec_len, vec_capacity};
ghost use Rattle.std.specs.Int.{w32, w64};
ghost use Rattle.std.specs.Bool.{then_some};
ghost use Rattle.std.specs.Cmp.Lexicographic.{pointwise};
ghost use Rattle.pt_num.specs.Numbers.{short_var};
ghost use Rattle.nt_head.specs.Fewest.{has_sequence, head_bytes, if_new, if_there, keeps_fields, sequence_bytes, sequence_of, KeepsSequence};
ghost use Rattle.nt_head.specs.declared.flags.TheConstants.{SEQUENCE};
ghost use Rattle.nt_head.specs.Head.{IsHead};
ghost use Rattle.nt_head.specs.Head.{flag as worth_of};

use crate::flags::{ACTIVITY, METADATA, RELATED, SEQUENCE, SIZE, SORTED, STACK, THREAD};
use crate::head::{HeadState, state_fits};
use crate::limits::{HEAD_BYTES, ID_BYTES};
use pt_num::{is_same_id, push_var32, push_var64};
use std::alloc::AllocError;
use std::mem;

/// Appends the header that says `now` after `previous`, with the fewest fields and each number in its shortest form,
/// at most 88 bytes, and answers how many.
///
/// With 88 bytes of reserved room it takes no memory. Under the metadata id 0 a header can't change the sequence
/// number, the capture thread or the processor.
pub fn put_head(
    out: &mut Vec<u8>,
    previous: &HeadState,
    now: &HeadState,
) -> Result<usize, AllocError>
    requires { now.now.metadata ≡ 0 → KeepsSequence previous.now now.now }
    ensures ok { OnOk result (out.new.items ≡ out.old.items ++ head_bytes previous.now now.now) }
    ensures count { IfOk result (λ count. count ≡ length (head_bytes previous.now now.now)) }
    ensures few { length (head_bytes previous.now now.now) ≤ HEAD_BYTES }
    ensures form { IsHead previous.now now.now (head_bytes previous.now now.now) }
    ensures err { OnErr result (out.new.items ≡ out.old.items) }
    ensures len { IfOk result (λ count. vec_len out.new ≡ vec_len out.old + count) }
    ensures room { vec_len out.old + HEAD_BYTES ≤ vec_capacity out.old → IsOk result }
    ensures capacity { vec_capacity out.old ≤ vec_capacity out.new }
{
    state_fits(previous);
    state_fits(now);
    out.reserve(HEAD_BYTES)?;
    let start = out.as_slice().len();
    push_head(out, previous, now);
    Ok(out.as_slice().len() - start)
}

/// Appends the fewest fields by which `now` differs from `previous`, for which there is room. It takes no memory.
///
/// They are a header that says `now` where `put_head`'s need is met.
pub fn push_head(out: &mut Vec<u8>, previous: &HeadState, now: &HeadState)
    requires { vec_len out.old + HEAD_BYTES ≤ vec_capacity out.old }
    ensures items { out.new.items ≡ out.old.items ++ head_bytes previous.now now.now }
    ensures len { vec_len out.new ≤ vec_len out.old + HEAD_BYTES }
    ensures capacity { vec_capacity out.new ≡ vec_capacity out.old }
{
    if says_nothing_new(previous, now) {
        push_usual(out, previous, now);
    } else {
        let mut last = *previous;
        push_changes(out, &mut last, now);
    }
}

/// Appends the header that says `now` after `last`, as [`put_head`] does, where there is room for it, and makes `now`
/// the last one. It takes no memory.
#[inline(always)]
pub fn push_next(out: &mut Vec<u8>, last: &mut HeadState, now: &HeadState)
    requires room { vec_len out.old + HEAD_BYTES ≤ vec_capacity out.old }
    requires keeps { now.now.metadata ≡ 0 → KeepsSequence last.old now.now }
    ensures items { out.new.items ≡ out.old.items ++ head_bytes last.old now.now }
    ensures few { length (head_bytes last.old now.now) ≤ HEAD_BYTES }
    ensures form { IsHead last.old now.now (head_bytes last.old now.now) }
    ensures last { last.new ≡ now.now }
    ensures len { vec_len out.new ≤ vec_len out.old + HEAD_BYTES }
    ensures capacity { vec_capacity out.new ≡ vec_capacity out.old }
{
    state_fits(last);
    state_fits(now);
    if says_nothing_new(last, now) {
        push_usual(out, last, now);
        last.number = now.number;
        last.stamp = now.stamp;
        last.sorted = now.sorted;
    } else {
        push_changes(out, last, now);
    }
}

// Appends the usual header, of an event that follows one of the same thread: a flag byte and the stamp's increment.
#[inline(always)]
fn push_usual(out: &mut Vec<u8>, previous: &HeadState, now: &HeadState)
    requires room { vec_len out.old + HEAD_BYTES ≤ vec_capacity out.old }
    requires usual { IsTrue (keeps_fields previous.now now.now) }
    ensures items { out.new.items ≡ out.old.items ++ head_bytes previous.now now.now }
    ensures len { vec_len out.new ≤ vec_len out.old + HEAD_BYTES }
    ensures capacity { vec_capacity out.new ≡ vec_capacity out.old }
{
    out.push_reserved(flag(SORTED, now.sorted));
    push_stamp(out, previous.stamp, now.stamp);
}

// Appends the flag byte and the fields that are new, and makes `now` the last header. In line, so that the state need
// not be put together in memory first.
#[inline(always)]
fn push_changes(out: &mut Vec<u8>, last: &mut HeadState, now: &HeadState)
    requires { vec_len out.old + HEAD_BYTES ≤ vec_capacity out.old }
    ensures items { out.new.items ≡ out.old.items ++ head_bytes last.old now.now }
    ensures last { last.new ≡ now.now }
    ensures len { vec_len out.new ≤ vec_len out.old + HEAD_BYTES }
    ensures capacity { vec_capacity out.new ≡ vec_capacity out.old }
{
    // The list is taken out of its place meanwhile, so that no byte that is put can be one of the list's own.
    let nothing = Vec::new(*out.allocator());
    let mut taken = mem::replace(out, nothing);
    push_in_turn(&mut taken, last, now);
    *out = taken;
}

// The same: each field is compared, put and kept in turn, and the flag byte is set when all of them are known.
#[inline(always)]
fn push_in_turn(out: &mut Vec<u8>, last: &mut HeadState, now: &HeadState)
    requires { vec_len out.old + HEAD_BYTES ≤ vec_capacity out.old }
    ensures items { out.new.items ≡ out.old.items ++ head_bytes last.old now.now }
    ensures last { last.new ≡ now.now }
    ensures len { vec_len out.new ≤ vec_len out.old + HEAD_BYTES }
    ensures capacity { vec_capacity out.new ≡ vec_capacity out.old }
{
    let place = out.len();
    out.push_reserved(0);
    let mut flags = push_new32(out, METADATA, &mut last.metadata, now.metadata);
    flags += push_sequence(out, last, now);
    flags += push_new64(out, THREAD, &mut last.thread, now.thread);
    flags += push_new32(out, STACK, &mut last.stack, now.stack);
    push_stamp(out, last.stamp, now.stamp);
    flags += push_new_id(out, ACTIVITY, &mut last.activity, &now.activity);
    flags += push_new_id(out, RELATED, &mut last.related, &now.related);
    flags += flag(SORTED, now.sorted);
    flags += push_new32(out, SIZE, &mut last.size, now.size);
    out[place] = flags;
    last.number = now.number;
    last.capture = now.capture;
    last.processor = now.processor;
    last.stamp = now.stamp;
    last.sorted = now.sorted;
}

// Whether the blob says what the blob before it says, but for the stamp and the next number.
#[inline(always)]
fn says_nothing_new(previous: &HeadState, now: &HeadState) -> bool
    ensures { result ≡ keeps_fields previous.now now.now }
{
    previous.metadata == now.metadata
        && !has_sequence(previous, now)
        && previous.thread == now.thread
        && previous.stack == now.stack
        && is_same_id(&previous.activity, &now.activity)
        && is_same_id(&previous.related, &now.related)
        && previous.size == now.size
}

// Whether the number, the capture thread or the processor has to be said after the previous header.
#[inline(always)]
fn has_sequence(previous: &HeadState, now: &HeadState) -> bool
    ensures { result ≡ has_sequence previous.now now.now }
{
    now.metadata != 0 && now.number != previous.number.wrapping_add(1)
        || now.capture != previous.capture
        || now.processor != previous.processor
}

#[inline(always)]
fn flag(worth: u8, set: bool) -> u8
    ensures value { result ≡ worth_of worth set }
    ensures bound { result ≤ worth }
{
    if set { worth } else { 0 }
}

// Appends a field where its value is new, and makes it the last one. It answers what the field's flag, which is worth
// this much, adds to the flag byte.
#[inline(always)]
fn push_new32(out: &mut Vec<u8>, worth: u8, last: &mut u32, now: u32) -> u8
    requires { vec_len out.old + 5 ≤ vec_capacity out.old }
    ensures items { out.new.items ≡ out.old.items ++ if_there (short_var w32) (if_new nat_eq last.old now) }
    ensures last { last.new ≡ now }
    ensures len { vec_len out.new ≤ vec_len out.old + 5 }
    ensures capacity { vec_capacity out.new ≡ vec_capacity out.old }
    ensures flag { result ≡ worth_of worth (is_some (if_new nat_eq last.old now)) }
    ensures bound { result ≤ worth }
{
    if *last == now {
        return 0;
    }
    push_var32(out, now);
    *last = now;
    worth
}

#[inline(always)]
fn push_new64(out: &mut Vec<u8>, worth: u8, last: &mut u64, now: u64) -> u8
    requires { vec_len out.old + 10 ≤ vec_capacity out.old }
    ensures items { out.new.items ≡ out.old.items ++ if_there (short_var w64) (if_new nat_eq last.old now) }
    ensures last { last.new ≡ now }
    ensures len { vec_len out.new ≤ vec_len out.old + 10 }
    ensures capacity { vec_capacity out.new ≡ vec_capacity out.old }
    ensures flag { result ≡ worth_of worth (is_some (if_new nat_eq last.old now)) }
    ensures bound { result ≤ worth }
{
    if *last == now {
        return 0;
    }
    push_var64(out, now);
    *last = now;
    worth
}

// The stamp's increment.
#[inline(always)]
fn push_stamp(out: &mut Vec<u8>, previous: u64, now: u64)
    requires { vec_len out.old + 10 ≤ vec_capacity out.old }
    ensures items { out.new.items ≡ out.old.items ++ short_var w64 ((now + 2 ^ 64 - previous) % 2 ^ 64) }
    ensures len { vec_len out.new ≤ vec_len out.old + 10 }
    ensures capacity { vec_capacity out.new ≡ vec_capacity out.old }
{
    push_var64(out, now.wrapping_sub(previous));
}

#[inline(always)]
fn push_new_id(out: &mut Vec<u8>, worth: u8, last: &mut [u8; 16], now: &[u8; 16]) -> u8
    requires { vec_len out.old + ID_BYTES ≤ vec_capacity out.old }
    ensures items { out.new.items ≡ out.old.items ++ if_there (λ id. id) (if_new (pointwise nat_eq) last.old now.now) }
    ensures last { last.new ≡ now.now }
    ensures len { vec_len out.new ≤ vec_len out.old + ID_BYTES }
    ensures capacity { vec_capacity out.new ≡ vec_capacity out.old }
    ensures flag { result ≡ worth_of worth (is_some (if_new (pointwise nat_eq) last.old now.now)) }
    ensures bound { result ≤ worth }
{
    if is_same_id(last, now) {
        return 0;
    }
    push_id(out, now);
    *last = *now;
    worth
}

#[inline(always)]
fn push_id(out: &mut Vec<u8>, id: &[u8; 16])
    requires { vec_len out.old + ID_BYTES ≤ vec_capacity out.old }
    ensures items { out.new.items ≡ out.old.items ++ id.now }
    ensures len { vec_len out.new ≡ vec_len out.old + ID_BYTES }
    ensures capacity { vec_capacity out.new ≡ vec_capacity out.old }
{
    // A copy, so that it is read in one piece and put in one.
    let id = *id;
    for byte in &id {
        out.push_reserved(*byte);
    }
}

// The number, the capture thread and the processor, where one of them has to be said.
#[inline(always)]
fn push_sequence(out: &mut Vec<u8>, previous: &HeadState, now: &HeadState) -> u8
    requires { vec_len out.old + 20 ≤ vec_capacity out.old }
    ensures items { out.new.items
        ≡ out.old.items ++ if_there sequence_bytes (then_some (has_sequence previous.now now.now) (sequence_of previous.now now.now)) }
    ensures len { vec_len out.new ≤ vec_len out.old + 20 }
    ensures capacity { vec_capacity out.new ≡ vec_capacity out.old }
    ensures flag { result
        ≡ worth_of SEQUENCE (is_some (then_some (has_sequence previous.now now.now) (sequence_of previous.now now.now))) }
    ensures bound { result ≤ SEQUENCE }
{
    if !has_sequence(previous, now) {
        return 0;
    }
    let increment = now.number.wrapping_sub(previous.number).wrapping_sub(1);
    push_var32(out, increment);
    push_var64(out, now.capture);
    push_var32(out, now.processor);
    SEQUENCE
}
