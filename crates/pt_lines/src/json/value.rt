//! Numbers and values.
ghost use Rattle.std.specs.Prelude.{◌≡◌, ◌≢◌, ◌^◌, ◌++◌, OnOk};
ghost use Rattle.std.specs.Fmt.{decimal};
ghost use Rattle.std.specs.Float.{binary32, binary64};
ghost use Rattle.nt_fields.specs.Taking.{value_in, StandsIn};
ghost use Rattle.nt_fields.specs.declared.value.Value.TheVariants as values;
ghost use Rattle.hex.specs.Hex.{encode_lower};
ghost use Rattle.pt_lines.specs.Texts.{date_text};
ghost use Rattle.pt_lines.specs.Json.{IsFloatNumber, IsValue, in_quotes, integer, signed_integer, uuid_text};
ghost use Rattle.pt_lines.specs.Appends.{Appends};

use crate::limits::MOST_EXACT;
use crate::text::{put_text, put_unit};
use crate::value::{
    DOUBLE_INFINITE, MOST_DIGITS, SINGLE_INFINITE, put_date, put_digits, put_guid, put_hex,
    put_signed, put_truth,
};
use nt_fields::Value;
use std::alloc::{AllocError, Global};

/// Appends the value whose bytes begin these, which is no object.
pub fn put_value(
    out: &mut Vec<u8>,
    alloc: Global,
    value: &Value<usize>,
    bytes: &[u8],
) -> Result<(), AllocError>
    requires stands { StandsIn bytes.now value.now }
    requires text { value.now ≢ values.Object }
    ensures { OnOk result (Appends (IsValue (value_in bytes.now value.now)) out.old.items out.new.items) }
{
    match value {
        Value::Object => unreachable!(),
        Value::Boolean(truth) => put_truth(out, *truth),
        Value::Char(unit) => put_unit(out, *unit),
        Value::Signed(number) => put_signed_integer(out, *number),
        Value::Unsigned(number) => put_integer(out, *number),
        Value::Single(bits) => put_single(out, *bits),
        Value::Double(bits) => put_double(out, *bits),
        Value::Decimal(long) => put_quoted_hex(out, alloc, long),
        Value::Date(numbers) => put_quoted_date(out, numbers),
        Value::Guid(long) => put_uuid(out, long),
        Value::Text(count) => put_text(out, &bytes[..2 * *count]),
    }
}

/// Appends a number, between quotes where it is too great.
pub fn put_integer(out: &mut Vec<u8>, number: u64) -> Result<(), AllocError>
    ensures { OnOk result (out.new.items ≡ out.old.items ++ integer number) }
{
    if number <= MOST_EXACT {
        return put_digits(out, number);
    }
    put_great(out, number)
}

// Appends a number between quotes.
fn put_great(out: &mut Vec<u8>, number: u64) -> Result<(), AllocError>
    ensures { OnOk result (out.new.items ≡ out.old.items ++ in_quotes (decimal number)) }
{
    // The digits come between quotes that stand there already, so that all goes in one piece.
    let mut text = [b'"'; MOST_DIGITS + 2];
    let start = itoa::write_digits(number, &mut text, MOST_DIGITS + 1);
    out.extend_from_slice(&text[start - 1..])
}

fn put_signed_integer(out: &mut Vec<u8>, number: i64) -> Result<(), AllocError>
    ensures { OnOk result (out.new.items ≡ out.old.items ++ signed_integer number) }
{
    if number.unsigned_abs() <= MOST_EXACT {
        return put_signed(out, number);
    }
    out.push(b'"')?;
    put_signed(out, number)?;
    Ok(out.push(b'"')?)
}

fn put_single(out: &mut Vec<u8>, bits: u32) -> Result<(), AllocError>
    ensures { OnOk result (Appends (IsFloatNumber binary32 (2 ^ 31) 0x7f800000 bits) out.old.items out.new.items) }
{
    if bits % 0x8000_0000 > SINGLE_INFINITE {
        return out.extend_from_slice(b"\"NaN\"");
    }
    let float = f32::from_bits(bits);
    let mut buffer = ryu::Buffer::new();
    if float.is_finite() {
        return out.extend_from_slice(buffer.format_finite(float).as_bytes());
    }
    put_plain(out, buffer.format(float).as_bytes())
}

fn put_double(out: &mut Vec<u8>, bits: u64) -> Result<(), AllocError>
    ensures { OnOk result (Appends (IsFloatNumber binary64 (2 ^ 63) 0x7ff0000000000000 bits) out.old.items out.new.items) }
{
    if bits % 0x8000_0000_0000_0000 > DOUBLE_INFINITE {
        return out.extend_from_slice(b"\"NaN\"");
    }
    let float = f64::from_bits(bits);
    let mut buffer = ryu::Buffer::new();
    if float.is_finite() {
        return out.extend_from_slice(buffer.format_finite(float).as_bytes());
    }
    put_plain(out, buffer.format(float).as_bytes())
}

/// Appends a text in which nothing has to be escaped.
pub fn put_plain(out: &mut Vec<u8>, text: &[u8]) -> Result<(), AllocError>
    ensures { OnOk result (out.new.items ≡ out.old.items ++ in_quotes text.now) }
{
    out.push(b'"')?;
    out.extend_from_slice(text)?;
    Ok(out.push(b'"')?)
}

/// Appends bytes in hexadecimal, between quotes.
pub fn put_quoted_hex(out: &mut Vec<u8>, alloc: Global, bytes: &[u8]) -> Result<(), AllocError>
    ensures { OnOk result (out.new.items ≡ out.old.items ++ in_quotes (encode_lower bytes.now)) }
{
    out.push(b'"')?;
    put_hex(out, alloc, bytes)?;
    Ok(out.push(b'"')?)
}

fn put_quoted_date(out: &mut Vec<u8>, numbers: &[u16; 8]) -> Result<(), AllocError>
    ensures { OnOk result (out.new.items ≡ out.old.items ++ in_quotes (date_text numbers.now)) }
{
    out.push(b'"')?;
    put_date(out, numbers)?;
    Ok(out.push(b'"')?)
}

// Appends sixteen bytes as a UUID.
fn put_uuid(out: &mut Vec<u8>, bytes: &[u8; 16]) -> Result<(), AllocError>
    ensures { OnOk result (out.new.items ≡ out.old.items ++ uuid_text bytes.now) }
{
    out.push(b'"')?;
    put_guid(out, bytes)?;
    Ok(out.push(b'"')?)
}
