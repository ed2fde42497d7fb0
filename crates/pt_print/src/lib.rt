//! Printed lines: a word, then numbers, then texts, and a line feed.
//!
//! It stands on itoa alone, for decimal digits. The program's summaries and reports are written by it, one line after
//! another into a buffer, which goes to the output in one piece.
//!
//! Its one contract: what each call appends is the part of a line that `specs/Printed` defines.
//!
//! What was chosen here, and why: docs/DECISIONS.md, "The ground".
#![tactic(auto)]

ghost use Rattle.std.specs.Prelude.{◌≡◌, ◌<◌, ◌^◌, ◌++◌, [], ◌∷◌, length, take, IsTrue, OnOk, OnErr};
ghost use Rattle.pt_print.specs.Printed.{number_part, text_part, units_part, unit_text, hex_digit};
ghost use Rattle.pt_print.specs.Printed as units;

use std::alloc::AllocError;

/// How many places a number fills at least.
pub const PLACES: usize = 10;

// How many it fills at most with the space before it: 2^64 - 1 has 20 digits.
const WIDEST: usize = 21;

/// Appends the word that begins a line.
pub fn put_word(out: &mut Vec<u8>, word: &str) -> Result<(), AllocError>
    ensures ok { OnOk result (out.new.items ≡ out.old.items ++ word.now) }
    ensures err { OnErr result (take (length out.old.items) out.new.items ≡ out.old.items) }
{
    out.extend_from_slice(word.as_bytes())
}

/// Appends a number, right in ten places, behind a space.
pub fn put_number(out: &mut Vec<u8>, number: u64) -> Result<(), AllocError>
    ensures ok { OnOk result (out.new.items ≡ out.old.items ++ number_part number) }
    ensures err { OnErr result (take (length out.old.items) out.new.items ≡ out.old.items) }
{
    // The digits come behind blanks that stand there already, so that all goes in one piece.
    let mut text = [b' '; WIDEST];
    let start = itoa::write_digits(number, &mut text, WIDEST);
    let digits = &text[start..];
    let blanks = 1 + PLACES.saturating_sub(digits.len());
    out.extend_from_slice(&text[start - blanks..])
}

/// Appends a text as it is, behind a space, or `-` where it is empty.
pub fn put_text(out: &mut Vec<u8>, text: &[u8]) -> Result<(), AllocError>
    ensures ok { OnOk result (out.new.items ≡ out.old.items ++ text_part text.now) }
    ensures err { OnErr result (take (length out.old.items) out.new.items ≡ out.old.items) }
{
    out.push(b' ')?;
    out.extend_from_slice(if text.is_empty() { b"-" } else { text })
}

/// Appends a text of UTF-16 behind a space, or `-` where it is empty. What is no visible ASCII character, and `\` too,
/// is written as `\u` and four hexadecimal digits.
pub fn put_units(out: &mut Vec<u8>, units: &[u16]) -> Result<(), AllocError>
    ensures ok { OnOk result (out.new.items ≡ out.old.items ++ units_part units.now) }
    ensures err { OnErr result (take (length out.old.items) out.new.items ≡ out.old.items) }
{
    if units.is_empty() {
        return put_text(out, b"");
    }
    out.push(b' ')?;
    for unit in units {
        put_unit(out, *unit)?;
    }
    Ok(())
}

#[tactic(auto, unfolding(crate::specs::Printed::unit_text))]
fn put_unit(out: &mut Vec<u8>, unit: u16) -> Result<(), AllocError>
    ensures ok { OnOk result (out.new.items ≡ out.old.items ++ unit_text unit) }
    ensures err { OnErr result (take (length out.old.items) out.new.items ≡ out.old.items) }
{
    if is_shown(unit) {
        return Ok(out.push(unit as u8)?);
    }
    out.extend_from_slice(&[
        b'\\',
        b'u',
        digit_text(unit / 0x1000),
        digit_text(unit / 0x100 % 0x10),
        digit_text(unit / 0x10 % 0x10),
        digit_text(unit % 0x10),
    ])
}

// Whether a unit is a visible ASCII character other than `\`.
fn is_shown(unit: u16) -> bool
    ensures value { result ≡ units.is_shown unit }
    ensures small { IsTrue result → unit < 2 ^ 8 }
{
    (33..=126).contains(&unit) && unit != u16::from(b'\\')
}

// A digit below 16, in lower case.
fn digit_text(digit: u16) -> u8
    requires { digit < 16 }
    ensures { result ≡ hex_digit digit }
{
    if digit < 10 {
        b'0' + digit as u8
    } else {
        b'a' - 10 + digit as u8
    }
}

/// Appends the line feed that ends a line.
pub fn put_end(out: &mut Vec<u8>) -> Result<(), AllocError>
    ensures ok { OnOk result (out.new.items ≡ out.old.items ++ 10 ∷ []) }
    ensures err { OnErr result (take (length out.old.items) out.new.items ≡ out.old.items) }
{
    Ok(out.push(b'\n')?)
}
