//! Numbers of a fixed width, the low byte first.
ghost use Rattle.std.specs.Prelude.{◌≡◌, ◌+◌, ◌<◌, ◌≤◌, ◌↔◌, ◌++◌, length, take, IsOk, OnOk, OnErr, IsNone, IfSome, vec_len, vec_capacity};
ghost use Rattle.std.specs.Int.{w16, w32, w64};
ghost use Rattle.pt_num.specs.Numbers.{fixed};
ghost use Rattle.pt_num.specs.Taking.{TakesFixed};

use byteorder::{ByteOrder, LittleEndian};
use std::alloc::AllocError;

/// Appends two bytes, the low one first.
#[tactic(auto, unfolding(crate::specs::Numbers::fixed))]
pub fn put_u16(out: &mut Vec<u8>, value: u16) -> Result<(), AllocError>
    ensures ok { OnOk result (out.new.items ≡ out.old.items ++ fixed w16 value) }
    ensures err { OnErr result (out.new.items ≡ out.old.items) }
    ensures len { OnOk result (vec_len out.new ≡ vec_len out.old + 2) }
    ensures room { vec_len out.old + 2 ≤ vec_capacity out.old → IsOk result }
    ensures capacity { vec_capacity out.old ≤ vec_capacity out.new }
{
    out.extend_from_slice(&value.to_le_bytes())
}

/// Appends four bytes, the low one first.
#[tactic(auto, unfolding(crate::specs::Numbers::fixed))]
pub fn put_u32(out: &mut Vec<u8>, value: u32) -> Result<(), AllocError>
    ensures ok { OnOk result (out.new.items ≡ out.old.items ++ fixed w32 value) }
    ensures err { OnErr result (out.new.items ≡ out.old.items) }
    ensures len { OnOk result (vec_len out.new ≡ vec_len out.old + 4) }
    ensures room { vec_len out.old + 4 ≤ vec_capacity out.old → IsOk result }
    ensures capacity { vec_capacity out.old ≤ vec_capacity out.new }
{
    out.extend_from_slice(&value.to_le_bytes())
}

/// Appends eight bytes, the low one first.
#[tactic(auto, unfolding(crate::specs::Numbers::fixed))]
pub fn put_u64(out: &mut Vec<u8>, value: u64) -> Result<(), AllocError>
    ensures ok { OnOk result (out.new.items ≡ out.old.items ++ fixed w64 value) }
    ensures err { OnErr result (out.new.items ≡ out.old.items) }
    ensures len { OnOk result (vec_len out.new ≡ vec_len out.old + 8) }
    ensures room { vec_len out.old + 8 ≤ vec_capacity out.old → IsOk result }
    ensures capacity { vec_capacity out.old ≤ vec_capacity out.new }
{
    out.extend_from_slice(&value.to_le_bytes())
}

/// The number of two bytes at the front, the low one first; none where fewer are there.
pub fn take_u16(bytes: &[u8]) -> Option<u16>
    ensures read { TakesFixed w16 bytes.now result }
    ensures none { IsNone result ↔ (length bytes.now < 2) }
    ensures form { IfSome result (λ value. fixed w16 value ≡ take 2 bytes.now) }
{
    if bytes.len() < 2 {
        return None;
    }
    Some(LittleEndian::read_u16(bytes))
}

/// The number of four bytes at the front, the low one first; none where fewer are there.
pub fn take_u32(bytes: &[u8]) -> Option<u32>
    ensures read { TakesFixed w32 bytes.now result }
    ensures none { IsNone result ↔ (length bytes.now < 4) }
    ensures form { IfSome result (λ value. fixed w32 value ≡ take 4 bytes.now) }
{
    if bytes.len() < 4 {
        return None;
    }
    Some(LittleEndian::read_u32(bytes))
}

/// The number of eight bytes at the front, the low one first; none where fewer are there.
pub fn take_u64(bytes: &[u8]) -> Option<u64>
    ensures read { TakesFixed w64 bytes.now result }
    ensures none { IsNone result ↔ (length bytes.now < 8) }
    ensures form { IfSome result (λ value. fixed w64 value ≡ take 8 bytes.now) }
{
    if bytes.len() < 8 {
        return None;
    }
    Some(LittleEndian::read_u64(bytes))
}
