//! Pieces that are written into a buffer, the last one first, so that all of them go out in one piece. Each ends at a place of the
//! buffer and answers where it starts.
ghost use Rattle.std.specs.Prelude.{◌≡◌, ◌+◌, ◌<◌, ◌≤◌, ◌++◌, length, take, drop, replicate};
ghost use Rattle.pt_print.specs.Printed.{number_part};
ghost use Rattle.pt_lines.specs.declared.place.TheConstants.{NUMBER_BYTES, INTEGER_BYTES};
ghost use Rattle.pt_lines.specs.Texts.{digits_in};
ghost use Rattle.pt_lines.specs.Json.{integer};

use crate::limits::MOST_EXACT;
use pt_print::PLACES;

// How many bytes a number fills at most with the space before it: 2^64 - 1 has 20 digits.
const NUMBER_BYTES: usize = 21;

// How many it fills at most between quotes.
const INTEGER_BYTES: usize = 22;

/// Writes a number, right in ten places, behind a space. Blanks stand there.
pub fn place_number(text: &mut [u8], end: usize, number: u64) -> usize
    requires within { end ≤ length text.old }
    requires room { NUMBER_BYTES ≤ end }
    requires blank { take end text.old ≡ replicate end 32 }
    ensures few { end ≤ result + NUMBER_BYTES }
    ensures before { result ≤ end }
    ensures written { drop result text.new ≡ number_part number ++ drop end text.old }
    ensures blank { take result text.new ≡ replicate result 32 }
    ensures len { length text.new ≡ length text.old }
{
    let start = itoa::write_digits(number, text, end);
    let blanks = 1 + PLACES.saturating_sub(end - start);
    start - blanks
}

/// Writes a word.
#[inline(always)]
pub fn place_word(text: &mut [u8], end: usize, word: &[u8]) -> usize
    requires within { end ≤ length text.old }
    requires room { length word.now ≤ end }
    ensures start { result + length word.now ≡ end }
    ensures written { drop result text.new ≡ word.now ++ drop end text.old }
    ensures before { take result text.new ≡ take result text.old }
    ensures len { length text.new ≡ length text.old }
{
    let start = end - word.len();
    text[start..end].copy_from_slice(word);
    start
}

/// Writes a number, between quotes where a reader may not hold it.
pub fn place_integer(text: &mut [u8], end: usize, number: u64) -> usize
    requires within { end ≤ length text.old }
    requires room { INTEGER_BYTES ≤ end }
    ensures few { end ≤ result + INTEGER_BYTES }
    ensures before { result ≤ end }
    ensures written { drop result text.new ≡ integer number ++ drop end text.old }
    ensures len { length text.new ≡ length text.old }
{
    if number <= MOST_EXACT {
        return itoa::write_digits(number, text, end);
    }
    let behind = place_word(text, end, b"\"");
    let start = itoa::write_digits(number, text, behind);
    place_word(text, start, b"\"")
}

/// Writes a number behind what names it.
#[inline(always)]
pub fn place_member(text: &mut [u8], end: usize, name: &[u8], number: u64) -> usize
    requires within { end ≤ length text.old }
    requires room { length name.now + INTEGER_BYTES ≤ end }
    ensures few { end ≤ result + (length name.now + INTEGER_BYTES) }
    ensures before { result ≤ end }
    ensures written { drop result text.new ≡ name.now ++ (integer number ++ drop end text.old) }
    ensures len { length text.new ≡ length text.old }
{
    let start = place_integer(text, end, number);
    place_word(text, start, name)
}

/// Writes the three digits of a number below 1000.
pub fn place_three(text: &mut [u8], end: usize, number: u16) -> usize
    requires within { end ≤ length text.old }
    requires room { 3 ≤ end }
    requires small { number < 1000 }
    ensures start { result + 3 ≡ end }
    ensures written { drop result text.new ≡ digits_in 3 number ++ drop end text.old }
    ensures len { length text.new ≡ length text.old }
{
    let digits = [
        b'0' + (number / 100) as u8,
        b'0' + (number / 10 % 10) as u8,
        b'0' + (number % 10) as u8,
    ];
    place_word(text, end, &digits)
}
