//! Numbers, in decimal and in hexadecimal digits.
ghost use Rattle.std.specs.Prelude.{◌≡◌, ◌++◌, ◌-◌, ◌^◌, ◌≤◌, OnOk};
ghost use Rattle.ep_plan.specs.Words.{at_most, numeral_in, number_in, hex_in, number_text, hex_text};

use crate::limits::{DECIMAL_DIGITS, HEX_DIGITS};
use std::alloc::AllocError;

/// The number of one decimal digit or more, where it is at most `most`. Leading zeros are allowed, a sign is not.
pub fn number(word: &[u8], most: u64) -> Option<u64>
    ensures { result ≡ number_in most word.now }
{
    numeral(word, 10, DECIMAL_DIGITS).filter(|value| *value <= most)
}

/// The number of one hexadecimal digit or more, of either case.
pub fn hexadecimal(word: &[u8]) -> Option<u64>
    ensures { result ≡ hex_in word.now }
{
    numeral(word, 16, HEX_DIGITS)
}

// The number that 1 to `places` digits spell, where it has 64 bits.
#[inline(always)]
fn numeral(word: &[u8], base: u32, places: usize) -> Option<u64>
    requires low { 2 ≤ base }
    requires high { base ≤ 36 }
    ensures { result ≡ at_most (2 ^ 64 - 1) (numeral_in base places word.now) }
{
    if word.is_empty() || word.len() > places {
        return None;
    }
    let mut value: u64 = 0;
    for byte in word {
        let digit = char::from(*byte).to_digit(base)?;
        value = value
            .checked_mul(u64::from(base))?
            .checked_add(u64::from(digit))?;
    }
    Some(value)
}

/// Appends a number in decimal digits, without leading zeros.
pub(crate) fn put_number(out: &mut Vec<u8>, value: u64) -> Result<(), AllocError>
    ensures { OnOk result (out.new.items ≡ out.old.items ++ number_text value) }
{
    let mut buffer = itoa::Buffer::new();
    out.extend_from_slice(buffer.format(value).as_bytes())
}

/// Appends a number in hexadecimal digits, in lower case and without leading zeros.
pub(crate) fn put_hexadecimal(out: &mut Vec<u8>, value: u64) -> Result<(), AllocError>
    ensures { OnOk result (out.new.items ≡ out.old.items ++ hex_text value) }
{
    let text = format!(in *out.allocator(); "{value:x}")?;
    out.extend_from_slice(text.as_bytes())
}
