//! Numbers as values of fields, as nearly all values are.
ghost use Rattle.std.specs.Prelude.{◌≡◌, IfSome};
ghost use Rattle.pt_lines.specs.state.Held.{IsNatural, IsHeld};
ghost use Rattle.nt_fields.specs.declared.kind.Size.TheVariants as sizes;

use crate::limits::MOST_EXACT;
use nt_fields::{FieldKind, Size};
use pt_num::{take_u32, take_u64};

// The greatest number of four bytes that has no sign.
const MOST_SHORT: u32 = 0x7fff_ffff;

/// A number as the value of a field, and how many bytes it has.
#[derive(Clone, Copy, Debug, PartialEq, Eq)]
pub struct HeldNumber {
    pub number: u64,
    pub used: usize,
}

/// The value of a field of this kind at the front of the bytes, if it is a number of four or eight bytes that is written alike
/// in a line and in an object: it is not below 0, and no reader takes it for another.
#[inline(always)]
pub fn number_at(kind: FieldKind, bytes: &[u8]) -> Option<HeldNumber>
    ensures { IfSome result (λ held. IsHeld kind bytes.now held) }
{
    match kind {
        FieldKind::Signed(size) => natural_at(size, bytes),
        FieldKind::Unsigned(size) => natural_at(size, bytes),
        _ => None,
    }
}

// Such a number, whether or not it could have a sign.
#[inline(always)]
fn natural_at(size: Size, bytes: &[u8]) -> Option<HeldNumber>
    ensures { IfSome result (λ held. IsNatural size bytes.now held) }
{
    match size {
        Size::Four => short_at(bytes),
        Size::Eight => long_at(bytes),
        Size::One | Size::Two => None,
    }
}

#[inline(always)]
fn short_at(bytes: &[u8]) -> Option<HeldNumber>
    ensures { IfSome result (λ held. IsNatural sizes.Four bytes.now held) }
{
    let number = take_u32(bytes)?;
    if number > MOST_SHORT {
        return None;
    }
    Some(HeldNumber {
        number: u64::from(number),
        used: 4,
    })
}

#[inline(always)]
fn long_at(bytes: &[u8]) -> Option<HeldNumber>
    ensures { IfSome result (λ held. IsNatural sizes.Eight bytes.now held) }
{
    let number = take_u64(bytes)?;
    if number > MOST_EXACT {
        return None;
    }
    Some(HeldNumber { number, used: 8 })
}
