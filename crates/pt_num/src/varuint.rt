//! Varuints: seven bits in each byte, the low ones first; the high bit says that more follow.
ghost use Rattle.std.specs.Prelude.{◌≡◌, ◌+◌, ◌-◌, ◌*◌, ◌^◌, ◌<◌, ◌≤◌, ◌↔◌, ◌++◌, length, take, IsOk, OnOk, OnErr, vec_len, vec_capacity};
ghost use Rattle.std.specs.Int.{w32, w64};
ghost use Rattle.pt_num.specs.declared.varuint.Taken.TheVariants.{Short, TooWide};
ghost use Rattle.pt_num.specs.Numbers.{short_var, IsVar, IsShortVar};
ghost use Rattle.pt_num.specs.Fields.{var_at, groups_at};
ghost use Rattle.pt_num.specs.Taking.{Takes, IfValue, IsCut, IsOver};
ghost use Rattle.pt_num.specs.declared.limits.TheConstants.{GROUP};

use crate::limits::{GROUP, VAR32_BYTES, VAR32_LAST, VAR64_BYTES, VAR64_LAST};
use std::alloc::AllocError;

/// What stands at the front of some bytes.
#[derive(Clone, Copy, Debug, PartialEq, Eq)]
pub enum Taken<T> {
    /// A value, and the number of its bytes.
    Value { value: T, used: usize },
    /// The bytes end before the value does.
    Short,
    /// The value doesn't fit its type.
    TooWide,
}

/// Appends a varuint of 32 bits in its shortest form, one to five bytes.
pub fn put_var32(out: &mut Vec<u8>, value: u32) -> Result<(), AllocError>
    ensures ok { OnOk result (out.new.items ≡ out.old.items ++ short_var w32 value) }
    ensures form { IsShortVar w32 value (short_var w32 value) }
    ensures err { OnErr result (out.new.items ≡ out.old.items) }
    ensures len { OnOk result (vec_len out.new ≡ vec_len out.old + length (short_var w32 value)) }
    ensures room { vec_len out.old + VAR32_BYTES ≤ vec_capacity out.old → IsOk result }
    ensures capacity { vec_capacity out.old ≤ vec_capacity out.new }
{
    out.reserve(VAR32_BYTES)?;
    push_var32(out, value);
    Ok(())
}

/// Appends a varuint of 64 bits in its shortest form, one to ten bytes.
pub fn put_var64(out: &mut Vec<u8>, value: u64) -> Result<(), AllocError>
    ensures ok { OnOk result (out.new.items ≡ out.old.items ++ short_var w64 value) }
    ensures form { IsShortVar w64 value (short_var w64 value) }
    ensures err { OnErr result (out.new.items ≡ out.old.items) }
    ensures len { OnOk result (vec_len out.new ≡ vec_len out.old + length (short_var w64 value)) }
    ensures room { vec_len out.old + VAR64_BYTES ≤ vec_capacity out.old → IsOk result }
    ensures capacity { vec_capacity out.old ≤ vec_capacity out.new }
{
    out.reserve(VAR64_BYTES)?;
    push_var64(out, value);
    Ok(())
}

/// Appends a varuint of 32 bits in its shortest form, for which there is room. It takes no memory.
pub fn push_var32(out: &mut Vec<u8>, value: u32)
    requires { vec_len out.old + VAR32_BYTES ≤ vec_capacity out.old }
    ensures items { out.new.items ≡ out.old.items ++ short_var w32 value }
    ensures len { vec_len out.new ≡ vec_len out.old + length (short_var w32 value) }
    ensures few { vec_len out.new ≤ vec_len out.old + VAR32_BYTES }
    ensures capacity { vec_capacity out.new ≡ vec_capacity out.old }
{
    push_groups(out, u64::from(value));
}

/// Appends a varuint of 64 bits in its shortest form, for which there is room. It takes no memory.
pub fn push_var64(out: &mut Vec<u8>, value: u64)
    requires { vec_len out.old + VAR64_BYTES ≤ vec_capacity out.old }
    ensures items { out.new.items ≡ out.old.items ++ short_var w64 value }
    ensures len { vec_len out.new ≡ vec_len out.old + length (short_var w64 value) }
    ensures few { vec_len out.new ≤ vec_len out.old + VAR64_BYTES }
    ensures capacity { vec_capacity out.new ≡ vec_capacity out.old }
{
    push_groups(out, value);
}

/// The varuint of 32 bits at the front, in any form whose value fits.
///
/// It is `Short` where fewer than five bytes are there and each says that more follow, and `TooWide` where the fifth
/// byte is reached and is above 15.
pub fn take_var32(bytes: &[u8]) -> Taken<u32>
    ensures read { Takes (var_at w32 bytes.now) bytes.now result }
    ensures form { IfValue result (λ value used. IsVar w32 value (take used bytes.now)) }
    ensures short { (result ≡ Short) ↔ IsCut w32 bytes.now }
    ensures wide { (result ≡ TooWide) ↔ IsOver w32 bytes.now }
{
    match take_groups(bytes, VAR32_BYTES, VAR32_LAST) {
        Taken::Value { value, used } => Taken::Value {
            value: value as u32,
            used,
        },
        Taken::Short => Taken::Short,
        Taken::TooWide => Taken::TooWide,
    }
}

/// The varuint of 64 bits at the front, in any form whose value fits.
///
/// It is `Short` where fewer than ten bytes are there and each says that more follow, and `TooWide` where the tenth
/// byte is reached and is above 1.
pub fn take_var64(bytes: &[u8]) -> Taken<u64>
    ensures read { Takes (var_at w64 bytes.now) bytes.now result }
    ensures form { IfValue result (λ value used. IsVar w64 value (take used bytes.now)) }
    ensures short { (result ≡ Short) ↔ IsCut w64 bytes.now }
    ensures wide { (result ≡ TooWide) ↔ IsOver w64 bytes.now }
{
    take_groups(bytes, VAR64_BYTES, VAR64_LAST)
}

// Appends the groups of a value, for which there is room.
fn push_groups(out: &mut Vec<u8>, value: u64)
    requires { vec_len out.old + length (short_var w64 value) ≤ vec_capacity out.old }
    ensures items { out.new.items ≡ out.old.items ++ short_var w64 value }
    ensures len { vec_len out.new ≡ vec_len out.old + length (short_var w64 value) }
    ensures capacity { vec_capacity out.new ≡ vec_capacity out.old }
{
    let mut rest = value;
    while rest >= GROUP as u64 {
        out.push_reserved((GROUP as u64 + rest % GROUP as u64) as u8);
        rest /= GROUP as u64;
    }
    out.push_reserved(rest as u8);
}

// A varuint of at most this many bytes, the last possible one of which is at most this.
fn take_groups(bytes: &[u8], most: usize, last: u8) -> Taken<u64>
    requires some { 0 < most }
    requires few { most ≤ 10 }
    requires some_last { 0 < last }
    requires low { last < GROUP }
    requires fits { (last + 1) * GROUP ^ (most - 1) ≤ 2 ^ 64 }
    ensures read { Takes (groups_at bytes.now (most - 1) last bytes.now) bytes.now result }
    ensures bound { IfValue result (λ value used. value < (last + 1) * GROUP ^ (most - 1)) }
{
    let mut value: u64 = 0;
    let mut scale: u64 = 1;
    for (place, byte) in bytes.iter().enumerate() {
        if place + 1 == most && *byte > last {
            return Taken::TooWide;
        }
        value += u64::from(*byte % GROUP) * scale;
        if *byte < GROUP {
            return Taken::Value {
                value,
                used: place + 1,
            };
        }
        scale *= GROUP as u64;
    }
    Taken::Short
}
