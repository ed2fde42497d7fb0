//! The fields of a part.
ghost use Rattle.std.specs.Prelude.{◌≡◌};
ghost use Rattle.ep_auto.specs.Fields.{field_at, keywords_in, level_in};

use crate::limits::{EVERY_KEYWORD, VERBOSE};
use ep_plan::{hexadecimal, number};

/// The field at a place of a part, from 0, which is empty where it is absent.
pub(crate) fn field(part: &[u8], place: usize) -> &[u8]
    ensures { result.now ≡ field_at place part.now }
{
    part.split(|byte| *byte == b':').nth(place).unwrap_or(&[])
}

/// The keywords of a field: all of them where it is empty, else hexadecimal digits, with or without `0x` before them.
pub(crate) fn keywords(field: &[u8]) -> Option<u64>
    ensures { result ≡ keywords_in field.now }
{
    if field.is_empty() {
        return Some(EVERY_KEYWORD);
    }
    let digits = if field.starts_with(b"0x") {
        &field[2..]
    } else {
        field
    };
    hexadecimal(digits)
}

/// The level of a field: verbose where it is empty, else decimal digits.
pub(crate) fn level(field: &[u8]) -> Option<u32>
    ensures { result ≡ level_in field.now }
{
    if field.is_empty() {
        return Some(VERBOSE);
    }
    let level = number(field, u64::from(u32::MAX))?;
    Some(level as u32)
}
