//! Ids of sixteen bytes.
ghost use Rattle.std.specs.Prelude.{◌≡◌, nat_eq};
ghost use Rattle.std.specs.Cmp.Lexicographic.{pointwise};

use byteorder::{ByteOrder, LittleEndian};

/// Whether two ids are the same, byte for byte. They are compared as two numbers, without a call.
#[inline(always)]
pub fn is_same_id(one: &[u8; 16], other: &[u8; 16]) -> bool
    ensures { result ≡ pointwise nat_eq one.now other.now }
{
    LittleEndian::read_u128(one) == LittleEndian::read_u128(other)
}
