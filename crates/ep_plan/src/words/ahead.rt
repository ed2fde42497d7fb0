//! Words that are read where they stand: their digits are taken until another byte comes, and no end is looked for first.
//!
//! Nearly all words of a long schedule are read so. Where one can't be, nothing is said of it, and it is read as a whole.
ghost use Rattle.std.specs.Prelude.{◌≡◌, ◌+◌, ◌*◌, ◌^◌, ◌<◌, ◌≤◌, ℕ, true, [], length, take, codes, Ok, Some, IfOk, IfSome, IsTrue};
ghost use Rattle.std.specs.Char.{digit_value, is_digit};
ghost use Rattle.std.specs.List.{list_all};
ghost use Rattle.std.specs.Str.Parse.{digits_value};
ghost use Rattle.hex.specs.Hex.{decode_of, hex_digit_value, pair_value};
ghost use Rattle.ep_plan.specs.Lines.{form_of};
ghost use Rattle.ep_plan.specs.declared.limits.TheConstants.{ID_DIGITS};
ghost use Rattle.ep_plan.specs.Words.{frames_in, id_in};
ghost use Rattle.ep_plan.specs.Cursor.{IsWordOf, EndsAt};

use crate::limits::{HEX_DIGITS, ID_DIGITS};
use crate::verb::Verb;
use ep_defs::{Bytes, Items};
use std::alloc::{AllocError, Global};

// The value of each byte as a hexadecimal digit of either case, or 256.
const DIGITS: [u16; 256] = [
    256, 256, 256, 256, 256, 256, 256, 256, 256, 256, 256, 256, 256, 256, 256, 256, 256, 256, 256,
    256, 256, 256, 256, 256, 256, 256, 256, 256, 256, 256, 256, 256, 256, 256, 256, 256, 256, 256,
    256, 256, 256, 256, 256, 256, 256, 256, 256, 256, 0, 1, 2, 3, 4, 5, 6, 7, 8, 9, 256, 256, 256,
    256, 256, 256, 256, 10, 11, 12, 13, 14, 15, 256, 256, 256, 256, 256, 256, 256, 256, 256, 256,
    256, 256, 256, 256, 256, 256, 256, 256, 256, 256, 256, 256, 256, 256, 256, 256, 10, 11, 12, 13,
    14, 15, 256, 256, 256, 256, 256, 256, 256, 256, 256, 256, 256, 256, 256, 256, 256, 256, 256,
    256, 256, 256, 256, 256, 256, 256, 256, 256, 256, 256, 256, 256, 256, 256, 256, 256, 256, 256,
    256, 256, 256, 256, 256, 256, 256, 256, 256, 256, 256, 256, 256, 256, 256, 256, 256, 256, 256,
    256, 256, 256, 256, 256, 256, 256, 256, 256, 256, 256, 256, 256, 256, 256, 256, 256, 256, 256,
    256, 256, 256, 256, 256, 256, 256, 256, 256, 256, 256, 256, 256, 256, 256, 256, 256, 256, 256,
    256, 256, 256, 256, 256, 256, 256, 256, 256, 256, 256, 256, 256, 256, 256, 256, 256, 256, 256,
    256, 256, 256, 256, 256, 256, 256, 256, 256, 256, 256, 256, 256, 256, 256, 256, 256, 256, 256,
    256, 256, 256, 256, 256, 256, 256, 256, 256, 256, 256, 256, 256, 256, 256, 256, 256, 256, 256,
    256, 256, 256,
];

// The same where another digit follows: 16 times as much, or 256.
const HIGH_DIGITS: [u16; 256] = [
    256, 256, 256, 256, 256, 256, 256, 256, 256, 256, 256, 256, 256, 256, 256, 256, 256, 256, 256,
    256, 256, 256, 256, 256, 256, 256, 256, 256, 256, 256, 256, 256, 256, 256, 256, 256, 256, 256,
    256, 256, 256, 256, 256, 256, 256, 256, 256, 256, 0, 16, 32, 48, 64, 80, 96, 112, 128, 144,
    256, 256, 256, 256, 256, 256, 256, 160, 176, 192, 208, 224, 240, 256, 256, 256, 256, 256, 256,
    256, 256, 256, 256, 256, 256, 256, 256, 256, 256, 256, 256, 256, 256, 256, 256, 256, 256, 256,
    256, 160, 176, 192, 208, 224, 240, 256, 256, 256, 256, 256, 256, 256, 256, 256, 256, 256, 256,
    256, 256, 256, 256, 256, 256, 256, 256, 256, 256, 256, 256, 256, 256, 256, 256, 256, 256, 256,
    256, 256, 256, 256, 256, 256, 256, 256, 256, 256, 256, 256, 256, 256, 256, 256, 256, 256, 256,
    256, 256, 256, 256, 256, 256, 256, 256, 256, 256, 256, 256, 256, 256, 256, 256, 256, 256, 256,
    256, 256, 256, 256, 256, 256, 256, 256, 256, 256, 256, 256, 256, 256, 256, 256, 256, 256, 256,
    256, 256, 256, 256, 256, 256, 256, 256, 256, 256, 256, 256, 256, 256, 256, 256, 256, 256, 256,
    256, 256, 256, 256, 256, 256, 256, 256, 256, 256, 256, 256, 256, 256, 256, 256, 256, 256, 256,
    256, 256, 256, 256, 256, 256, 256, 256, 256, 256, 256, 256, 256, 256, 256, 256, 256, 256, 256,
    256, 256, 256, 256, 256, 256, 256, 256,
];

// The value of a byte as a hexadecimal digit, or 256.
#[inline(always)]
fn digit_of(byte: u8) -> u16
    ensures digit { result < 16 → (hex_digit_value byte ≡ Some result) × (digit_value byte ≡ result) }
    ensures other { result < 256 → result < 16 }
    ensures most { result ≤ 256 }
{
    DIGITS[byte as usize]
}

// 16 times the value of a byte as a hexadecimal digit, or 256.
#[inline(always)]
fn high_digit_of(byte: u8) -> u16
    ensures digit { result < 256 → (digit : ℕ) × (hex_digit_value byte ≡ Some digit) × (digit * 16 ≡ result) }
    ensures most { result ≤ 256 }
{
    HIGH_DIGITS[byte as usize]
}

/// The number that the digits at the front of a text spell, of which at most so many are taken, and how many they are.
#[inline(always)]
pub(crate) fn leading(text: &[u8], base: u64, places: usize) -> (u64, usize)
    requires low { 2 ≤ base }
    requires high { base ≤ 16 }
    requires fits { base ^ places ≤ 2 ^ 64 }
    ensures few { result.1 ≤ places }
    ensures within { result.1 ≤ length text.now }
    ensures digits { list_all (λ digit. is_digit digit base) (take result.1 text.now) ≡ true }
    ensures value { result.0 ≡ digits_value base (take result.1 text.now) }
{
    let mut value: u64 = 0;
    let most = text.len().min(places);
    'digits: for place in 0..most {
        let digit = u64::from(digit_of(text[place]));
        if digit >= base {
            return (value, place);
        }
        value = value * base + digit;
    }
    (value, most)
}

/// Whether the first word of a text is `-`.
#[inline(always)]
pub(crate) fn dash_ahead(text: &[u8]) -> bool
    ensures word { IsTrue result → IsWordOf text.now 1 }
    ensures dash { IsTrue result → take 1 text.now ≡ codes "-" }
{
    match text {
        [b'-'] | [b'-', b' ', ..] => true,
        _ => false,
    }
}

/// The verb that a text begins with, and its bytes, if it is one of those with which nearly all lines begin.
#[inline(always)]
pub(crate) fn verb_ahead(text: &[u8]) -> Option<(Verb, usize)>
    ensures word { IfSome result (λ found. IsWordOf text.now found.1) }
    ensures name { IfSome result (λ found. take found.1 text.now ≡ (form_of found.0).name) }
{
    match text {
        [b's', b'h', b'o', b'w', b' ', ..] => Some((Verb::Show, 4)),
        [b'e', b'n', b'd', b' ', ..] => Some((Verb::End, 3)),
        [b'b', b'e', b'g', b'i', b'n', b' ', ..] => Some((Verb::Begin, 5)),
        [b's', b't', b'e', b'a', b'l', b' ', ..] => Some((Verb::Steal, 5)),
        [b'g', b'i', b'v', b'e', b' ', ..] => Some((Verb::Give, 4)),
        _ => None,
    }
}

/// Whether a word ends after so many bytes of a text, at a space or at the text's end.
#[inline(always)]
pub(crate) fn ends(text: &[u8], count: usize) -> bool
    requires { count ≤ length text.now }
    ensures { IsTrue result → EndsAt text.now count }
{
    count == text.len() || text[count] == b' '
}

/// The id that the first word of a text spells, if it has digits alone.
#[inline(always)]
pub(crate) fn id_ahead(text: &[u8]) -> Option<[u8; 16]>
    ensures word { IfSome result (λ id. IsWordOf text.now ID_DIGITS) }
    ensures id { IfSome result (λ id. id_in (take ID_DIGITS text.now) ≡ Some id) }
{
    if text.len() < ID_DIGITS || !ends(text, ID_DIGITS) {
        return None;
    }
    let mut id = [0; 16];
    if spelled(&text[..ID_DIGITS], &mut id) {
        Some(id)
    } else {
        None
    }
}

/// Appends the return addresses at the front of a text, if they are a word with another behind it, and answers how many
/// bytes it has.
pub(crate) fn frames_ahead(text: &[u8], frames: &mut Vec<u64>) -> Result<Option<usize>, AllocError>
    requires { frames.old.items ≡ [] }
    ensures word { IfOk result (λ found. IfSome found (IsWordOf text.now)) }
    ensures read { IfOk result (λ found. IfSome found (λ count. frames_in (take count text.now) ≡ Some frames.new.items)) }
{
    let mut begin = 0;
    'frames: while begin < text.len() {
        let (frame, count) = leading(&text[begin..], 16, HEX_DIGITS);
        let end = begin + count;
        if count == 0 || end >= text.len() {
            return Ok(None);
        }
        frames.push(frame)?;
        match text[end] {
            b',' => begin = end + 1,
            b' ' => return Ok(Some(end)),
            _ => return Ok(None),
        }
    }
    Ok(None)
}

/// The bytes that a text spells, if it is pairs of hexadecimal digits, and one pair at least.
pub(crate) fn bytes_ahead(alloc: Global, text: &[u8]) -> Result<Option<Bytes>, AllocError>
    ensures bytes { IfOk result (λ found. IfSome found (λ bytes. decode_of text.now ≡ Ok bytes)) }
    ensures some { IfOk result (λ found. IfSome found (λ bytes. 0 < length text.now)) }
{
    if text.is_empty() || text.len() % 2 != 0 {
        return Ok(None);
    }
    let mut bytes = vec![in alloc; 0u8; text.len() / 2]?;
    if spelled(text, bytes.as_mut_slice()) {
        Ok(Some(Items::new(bytes)))
    } else {
        Ok(None)
    }
}

// Whether there are digits alone, which spell the bytes that are put then.
#[inline(always)]
fn spelled(digits: &[u8], out: &mut [u8]) -> bool
    requires { length digits.now ≡ 2 * length out.old }
    ensures { IsTrue result → decode_of digits.now ≡ Ok out.new }
{
    'pairs: for place in 0..out.len() {
        let Some(byte) = pair(digits[2 * place], digits[2 * place + 1]) else {
            return false;
        };
        out[place] = byte;
    }
    true
}

// The byte that two digits spell.
#[inline(always)]
fn pair(high: u8, low: u8) -> Option<u8>
    ensures { IfSome result (λ byte. (at : ℕ) → pair_value high low at ≡ Ok byte) }
{
    let value = high_digit_of(high) + digit_of(low);
    if value < 256 { Some(value as u8) } else { None }
}
