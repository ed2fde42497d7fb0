//! Names and texts of strangers: what is not printable ASCII is escaped.
ghost use Rattle.std.specs.Prelude.{◌≡◌, ◌<◌, ◌^◌, ◌/◌, ◌%◌, ◌++◌, ◌∷◌, [], IsTrue, OnOk};
ghost use Rattle.std.specs.List.{flat_map};
ghost use Rattle.pt_print.specs.Printed.{hex_digit};
ghost use Rattle.ep_defs.specs.Text.{units_in};
ghost use Rattle.pt_lines.specs.Texts as texts;
ghost use Rattle.pt_lines.specs.Texts.{escape, name_unit, text_unit, quoted};

use std::alloc::AllocError;

/// Appends the name of a field.
pub fn put_name(out: &mut Vec<u8>, units: &[u16]) -> Result<(), AllocError>
    ensures { OnOk result (out.new.items ≡ out.old.items ++ flat_map name_unit units.now) }
{
    for unit in units {
        put_name_unit(out, *unit)?;
    }
    Ok(())
}

fn put_name_unit(out: &mut Vec<u8>, unit: u16) -> Result<(), AllocError>
    ensures { OnOk result (out.new.items ≡ out.old.items ++ name_unit unit) }
{
    if is_name_unit(unit) {
        return Ok(out.push(unit as u8)?);
    }
    put_escape(out, unit)
}

/// Appends a text between quotes.
pub fn put_quoted(out: &mut Vec<u8>, units: &[u16]) -> Result<(), AllocError>
    ensures { OnOk result (out.new.items ≡ out.old.items ++ quoted units.now) }
{
    out.push(b'"')?;
    for unit in units {
        put_text_unit(out, *unit)?;
    }
    Ok(out.push(b'"')?)
}

/// Appends a unit between quotes.
pub fn put_unit(out: &mut Vec<u8>, unit: u16) -> Result<(), AllocError>
    ensures { OnOk result (out.new.items ≡ out.old.items ++ quoted (unit ∷ [])) }
{
    out.push(b'"')?;
    put_text_unit(out, unit)?;
    Ok(out.push(b'"')?)
}

/// Appends the text of these units, two bytes each, between quotes.
pub fn put_text(out: &mut Vec<u8>, bytes: &[u8]) -> Result<(), AllocError>
    ensures { OnOk result (out.new.items ≡ out.old.items ++ quoted (units_in bytes.now)) }
{
    out.push(b'"')?;
    let mut left = bytes;
    while let [low, high, rest @ ..] = left {
        put_text_unit(out, u16::from(*low) + 256 * u16::from(*high))?;
        left = rest;
    }
    Ok(out.push(b'"')?)
}

#[inline(always)]
fn put_text_unit(out: &mut Vec<u8>, unit: u16) -> Result<(), AllocError>
    ensures { OnOk result (out.new.items ≡ out.old.items ++ text_unit unit) }
{
    if is_text_unit(unit) {
        return Ok(out.push(unit as u8)?);
    }
    put_escape(out, unit)
}

// Appends `\u` and four hexadecimal digits.
#[tactic(auto, unfolding(crate::specs::Texts::escape))]
fn put_escape(out: &mut Vec<u8>, unit: u16) -> Result<(), AllocError>
    ensures { OnOk result (out.new.items ≡ out.old.items ++ escape unit) }
{
    out.extend_from_slice(&[
        b'\\',
        b'u',
        digit_text(unit / 0x1000),
        digit_text(unit / 0x100 % 0x10),
        digit_text(unit / 0x10 % 0x10),
        digit_text(unit % 0x10),
    ])
}

// Whether a unit of a field's name stands as it is.
fn is_name_unit(unit: u16) -> bool
    ensures value { result ≡ texts.is_name_unit unit }
    ensures small { IsTrue result → unit < 2 ^ 8 }
{
    (33..=126).contains(&unit) && unit != u16::from(b'\\') && unit != u16::from(b'=')
}

// Whether a unit of a text stands as it is.
fn is_text_unit(unit: u16) -> bool
    ensures value { result ≡ texts.is_text_unit unit }
    ensures small { IsTrue result → unit < 2 ^ 8 }
{
    (32..=126).contains(&unit)
        && unit != u16::from(b'\\')
        && unit != u16::from(b'"')
        && unit != u16::from(b'<')
}

// A digit below 16, in lower case.
fn digit_text(digit: u16) -> u8
    requires { digit < 16 }
    ensures { result ≡ hex_digit digit }
{
    if digit < 10 {
        b'0' + digit as u8
    } else {
        b'a' - 10 + digit as u8
    }
}

// The two digits of each byte.
static PAIRS: [u8; 512] =
    *b"000102030405060708090a0b0c0d0e0f101112131415161718191a1b1c1d1e1f202122232425262728292a2b2c2d2e2f303132333435363738393a3b3c3d3e3f404142434445464748494a4b4c4d4e4f505152535455565758595a5b5c5d5e5f606162636465666768696a6b6c6d6e6f707172737475767778797a7b7c7d7e7f808182838485868788898a8b8c8d8e8f909192939495969798999a9b9c9d9e9fa0a1a2a3a4a5a6a7a8a9aaabacadaeafb0b1b2b3b4b5b6b7b8b9babbbcbdbebfc0c1c2c3c4c5c6c7c8c9cacbcccdcecfd0d1d2d3d4d5d6d7d8d9dadbdcdddedfe0e1e2e3e4e5e6e7e8e9eaebecedeeeff0f1f2f3f4f5f6f7f8f9fafbfcfdfeff";

/// The digit of a byte's high half.
#[inline(always)]
pub fn high_text(byte: u8) -> u8
    ensures { result ≡ hex_digit (byte / 16) }
{
    PAIRS[usize::from(byte) * 2]
}

/// And that of its low half.
#[inline(always)]
pub fn low_text(byte: u8) -> u8
    ensures { result ≡ hex_digit (byte % 16) }
{
    PAIRS[usize::from(byte) * 2 + 1]
}
