//! The value of a field.
ghost use Rattle.std.specs.Prelude.{◌≡◌, ◌<◌, ◌^◌, ◌++◌, length, OnOk};
ghost use Rattle.std.specs.Fmt.{decimal, signed_decimal};
ghost use Rattle.std.specs.Float.{binary32, binary64};
ghost use Rattle.hex.specs.Hex.{encode_lower};
ghost use Rattle.uuid.specs.Parts.{swap_fields};
ghost use Rattle.uuid.specs.Text.{hyphenated_text, lower};
ghost use Rattle.nt_fields.specs.Taking.{value_in, StandsIn};
ghost use Rattle.pt_lines.specs.Texts.{IsShown, IsFloat, truth_text, digits_in, day_text, clock_text, date_text};
ghost use Rattle.pt_lines.specs.Appends.{Appends};

use crate::guid::{GUID_BYTES, place_guid};
use crate::text::{put_text, put_unit};
use nt_fields::Value;
use std::alloc::{AllocError, Global};

/// Appends the value whose bytes begin these.
pub fn put_value(
    out: &mut Vec<u8>,
    alloc: Global,
    value: &Value<usize>,
    bytes: &[u8],
) -> Result<(), AllocError>
    requires { StandsIn bytes.now value.now }
    ensures { OnOk result (Appends (IsShown (value_in bytes.now value.now)) out.old.items out.new.items) }
{
    match value {
        Value::Object => out.extend_from_slice(b"{"),
        Value::Boolean(truth) => put_truth(out, *truth),
        Value::Char(unit) => put_unit(out, *unit),
        Value::Signed(number) => put_signed(out, *number),
        Value::Unsigned(number) => put_digits(out, *number),
        Value::Single(bits) => put_single(out, *bits),
        Value::Double(bits) => put_double(out, *bits),
        Value::Decimal(long) => put_hex(out, alloc, long),
        Value::Date(numbers) => put_date(out, numbers),
        Value::Guid(long) => put_guid(out, long),
        Value::Text(count) => put_text(out, &bytes[..2 * *count]),
    }
}

/// Appends a Boolean.
pub fn put_truth(out: &mut Vec<u8>, truth: bool) -> Result<(), AllocError>
    ensures { OnOk result (out.new.items ≡ out.old.items ++ truth_text truth) }
{
    if truth {
        out.extend_from_slice(b"true")
    } else {
        out.extend_from_slice(b"false")
    }
}

/// Appends a number with its sign.
pub fn put_signed(out: &mut Vec<u8>, number: i64) -> Result<(), AllocError>
    ensures { OnOk result (out.new.items ≡ out.old.items ++ signed_decimal number) }
{
    if number >= 0 {
        return put_digits(out, number.unsigned_abs());
    }
    let mut buffer = itoa::Buffer::new();
    out.extend_from_slice(buffer.format(number).as_bytes())
}

/// How many digits a number has at most: those of 2^64 - 1.
pub const MOST_DIGITS: usize = 20;

/// Appends a number.
#[inline(always)]
pub fn put_digits(out: &mut Vec<u8>, number: u64) -> Result<(), AllocError>
    ensures { OnOk result (out.new.items ≡ out.old.items ++ decimal number) }
{
    // Most of a definition's numbers have one digit.
    if number < 10 {
        return Ok(out.push(b'0' + number as u8)?);
    }
    let mut text = [0; MOST_DIGITS];
    let start = itoa::write_digits(number, &mut text, MOST_DIGITS);
    out.extend_from_slice(&text[start..])
}

/// The bits of the exponent, all of them set: above them, without the sign, stands no number.
pub const SINGLE_INFINITE: u32 = 0x7f80_0000;

/// So it is with a float of 64 bits.
pub const DOUBLE_INFINITE: u64 = 0x7ff0_0000_0000_0000;

fn put_single(out: &mut Vec<u8>, bits: u32) -> Result<(), AllocError>
    ensures { OnOk result (Appends (IsFloat binary32 (2 ^ 31) 0x7f800000 bits) out.old.items out.new.items) }
{
    if bits % 0x8000_0000 > SINGLE_INFINITE {
        return out.extend_from_slice(b"NaN");
    }
    let mut buffer = ryu::Buffer::new();
    out.extend_from_slice(buffer.format(f32::from_bits(bits)).as_bytes())
}

fn put_double(out: &mut Vec<u8>, bits: u64) -> Result<(), AllocError>
    ensures { OnOk result (Appends (IsFloat binary64 (2 ^ 63) 0x7ff0000000000000 bits) out.old.items out.new.items) }
{
    if bits % 0x8000_0000_0000_0000 > DOUBLE_INFINITE {
        return out.extend_from_slice(b"NaN");
    }
    let mut buffer = ryu::Buffer::new();
    out.extend_from_slice(buffer.format(f64::from_bits(bits)).as_bytes())
}

/// Appends bytes in hexadecimal.
pub fn put_hex(out: &mut Vec<u8>, alloc: Global, bytes: &[u8]) -> Result<(), AllocError>
    ensures { OnOk result (out.new.items ≡ out.old.items ++ encode_lower bytes.now) }
{
    out.extend_from_slice(hex::encode(alloc, bytes)?.as_bytes())
}

/// Appends sixteen bytes as a UUID, of which the first three parts have their low byte first.
pub fn put_guid(out: &mut Vec<u8>, bytes: &[u8; 16]) -> Result<(), AllocError>
    ensures { OnOk result (out.new.items ≡ out.old.items ++ hyphenated_text lower (swap_fields bytes.now)) }
{
    let mut text = [0; GUID_BYTES];
    let start = place_guid(&mut text, GUID_BYTES, bytes);
    out.extend_from_slice(&text[start..])
}

/// Appends a date.
pub fn put_date(out: &mut Vec<u8>, numbers: &[u16; 8]) -> Result<(), AllocError>
    ensures { OnOk result (out.new.items ≡ out.old.items ++ date_text numbers.now) }
{
    put_day(out, numbers)?;
    out.push(b'T')?;
    put_clock(out, numbers)?;
    out.push(b'.')?;
    put_places(out, 3, numbers[7])
}

fn put_day(out: &mut Vec<u8>, numbers: &[u16; 8]) -> Result<(), AllocError>
    ensures { OnOk result (out.new.items ≡ out.old.items ++ day_text numbers.now) }
{
    put_places(out, 4, numbers[0])?;
    out.push(b'-')?;
    put_places(out, 2, numbers[1])?;
    out.push(b'-')?;
    put_places(out, 2, numbers[3])
}

fn put_clock(out: &mut Vec<u8>, numbers: &[u16; 8]) -> Result<(), AllocError>
    ensures { OnOk result (out.new.items ≡ out.old.items ++ clock_text numbers.now) }
{
    put_places(out, 2, numbers[4])?;
    out.push(b':')?;
    put_places(out, 2, numbers[5])?;
    out.push(b':')?;
    put_places(out, 2, numbers[6])
}

/// Appends a number in at least so many digits.
pub fn put_places(out: &mut Vec<u8>, places: usize, number: u16) -> Result<(), AllocError>
    requires { places < 2 ^ 8 }
    ensures { OnOk result (out.new.items ≡ out.old.items ++ digits_in places number) }
{
    let mut buffer = itoa::Buffer::new();
    let digits = buffer.format(number).as_bytes();
    out.resize(out.len() + places.saturating_sub(digits.len()), b'0')?;
    out.extend_from_slice(digits)
}
