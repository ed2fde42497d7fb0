//! Taking the value at the front of some bytes.
ghost use Rattle.std.specs.Prelude.{◌≡◌, ◌≤◌, Ok, Err, length, drop, MatchOption, IfSome};
ghost use Rattle.std.specs.Int.{w8, byte_len};
ghost use Rattle.ep_defs.specs.Text.{units_in};
ghost use Rattle.pt_num.specs.Fields.{Short, bytes_at};
ghost use Rattle.pt_num.specs.Taking.{TakesFixed};
ghost use Rattle.nt_fields.specs.Values.{value_at, width_of};
ghost use Rattle.nt_fields.specs.Taking.{TakesValue, TakesSigned};
ghost use Rattle.nt_fields.specs.declared.kind.FieldKind.TheVariants as kind;

use crate::kind::{FieldKind, Size};
use crate::value::Value;
use byteorder::{ByteOrder, LittleEndian};
use pt_num::{TakenText, take_u16, take_u32, take_u64, take_utf16z};

/// A value at the front of some bytes.
#[derive(Clone, Copy, Debug, PartialEq, Eq)]
pub struct Taken {
    /// The value. The units of a text stand at the front, two bytes each, and this is their number without the zero unit.
    pub value: Value<usize>,
    /// How many bytes it has.
    pub used: usize,
}

// How many bytes a decimal, a date and a GUID have each.
const LONG_BYTES: usize = 16;

impl FieldKind {
    /// Takes the value of a field of this kind at the front of the bytes: none where they are too few, a text has no end,
    /// or a Boolean is neither 0 nor 1.
    pub fn take(self, bytes: &[u8]) -> Option<Taken>
        ensures { TakesValue (value_at self bytes.now) bytes.now result }
    {
        match self {
            FieldKind::Object => Some(found(Value::Object, 0)),
            FieldKind::Boolean => take_boolean(bytes),
            FieldKind::Char => Some(found(Value::Char(take_u16(bytes)?), 2)),
            FieldKind::Signed(size) => {
                let number = take_signed(size, bytes)?;
                Some(found(Value::Signed(number), size.bytes()))
            }
            FieldKind::Unsigned(size) => {
                let number = take_unsigned(size, bytes)?;
                Some(found(Value::Unsigned(number), size.bytes()))
            }
            FieldKind::Single => Some(found(Value::Single(take_u32(bytes)?), 4)),
            FieldKind::Double => Some(found(Value::Double(take_u64(bytes)?), 8)),
            FieldKind::Decimal => Some(found(Value::Decimal(take_long(bytes)?), LONG_BYTES)),
            FieldKind::Date => {
                let numbers = date_in(&take_long(bytes)?);
                Some(found(Value::Date(numbers), LONG_BYTES))
            }
            FieldKind::Guid => Some(found(Value::Guid(take_long(bytes)?), LONG_BYTES)),
            FieldKind::Text => take_text(bytes),
        }
    }
}

fn found(value: Value<usize>, used: usize) -> Taken
    ensures { result ≡ record { value = value; used = used } }
{
    Taken { value, used }
}

impl Size {
    fn bytes(self) -> usize
        ensures { result ≡ byte_len (width_of self) }
    {
        match self {
            Size::One => 1,
            Size::Two => 2,
            Size::Four => 4,
            Size::Eight => 8,
        }
    }
}

fn take_boolean(bytes: &[u8]) -> Option<Taken>
    ensures { TakesValue (value_at kind.Boolean bytes.now) bytes.now result }
{
    match take_u32(bytes)? {
        0 => Some(found(Value::Boolean(false), 4)),
        1 => Some(found(Value::Boolean(true), 4)),
        _ => None,
    }
}

fn take_u8(bytes: &[u8]) -> Option<u8>
    ensures { TakesFixed w8 bytes.now result }
{
    bytes.first().copied()
}

fn take_unsigned(size: Size, bytes: &[u8]) -> Option<u64>
    ensures { TakesFixed (width_of size) bytes.now result }
{
    match size {
        Size::One => Some(u64::from(take_u8(bytes)?)),
        Size::Two => Some(u64::from(take_u16(bytes)?)),
        Size::Four => Some(u64::from(take_u32(bytes)?)),
        Size::Eight => take_u64(bytes),
    }
}

fn take_signed(size: Size, bytes: &[u8]) -> Option<i64>
    ensures { TakesSigned (width_of size) bytes.now result }
{
    match size {
        Size::One => Some(i64::from(take_u8(bytes)?.cast_signed())),
        Size::Two => Some(i64::from(take_u16(bytes)?.cast_signed())),
        Size::Four => Some(i64::from(take_u32(bytes)?.cast_signed())),
        Size::Eight => Some(take_u64(bytes)?.cast_signed()),
    }
}

fn take_long(bytes: &[u8]) -> Option<[u8; LONG_BYTES]>
    ensures read { MatchOption result (bytes_at 16 bytes.now ≡ Err Short)
        (λ long. bytes_at 16 bytes.now ≡ Ok (long, drop 16 bytes.now)) }
    ensures enough { IfSome result (λ long. 16 ≤ length bytes.now) }
{
    if bytes.len() < LONG_BYTES {
        return None;
    }
    let mut long = [0; LONG_BYTES];
    long.copy_from_slice(&bytes[..LONG_BYTES]);
    Some(long)
}

// The numbers of a date.
fn date_in(bytes: &[u8; LONG_BYTES]) -> [u16; 8]
    ensures { result ≡ units_in bytes.now }
{
    let mut date = [0; 8];
    LittleEndian::read_u16_into(bytes, &mut date);
    date
}

fn take_text(bytes: &[u8]) -> Option<Taken>
    ensures { TakesValue (value_at kind.Text bytes.now) bytes.now result }
{
    match take_utf16z(bytes) {
        TakenText::Units { count, used } => Some(found(Value::Text(count), used)),
        TakenText::Short => None,
        TakenText::NoZero => unreachable!(),
    }
}
