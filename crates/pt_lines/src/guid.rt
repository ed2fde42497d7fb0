//! Sixteen bytes as a UUID.
ghost use Rattle.std.specs.Prelude.{◌≡◌, ◌+◌, ◌≤◌, ◌++◌, length, drop, replicate};
ghost use Rattle.ep_defs.specs.Event.{is_same_text};
ghost use Rattle.uuid.specs.Parts.{swap_fields};
ghost use Rattle.uuid.specs.Text.{hyphenated_text, lower};
ghost use Rattle.pt_lines.specs.state.Halves.{back_digits, front_digits};
ghost use Rattle.pt_lines.specs.declared.guid.TheConstants.{GUID_BYTES};

use crate::place::place_word;
use crate::text::{high_text, low_text};
use ep_defs::ranges::bytes_fit;
use pt_num::is_same_id;

/// How many bytes the text has.
pub const GUID_BYTES: usize = 36;

// How many bytes a half of it has.
const HALF_BYTES: usize = 18;

/// Whether sixteen bytes are zeros, those of no activity.
pub fn is_none(bytes: &[u8; 16]) -> bool
    ensures { result ≡ is_same_text bytes.now (replicate 16 0) }
{
    is_same_id(bytes, &[0; 16])
}

/// Writes sixteen bytes as a UUID, of which the first three parts have their low byte first.
pub fn place_guid(text: &mut [u8], end: usize, bytes: &[u8; 16]) -> usize
    requires within { end ≤ length text.old }
    requires room { GUID_BYTES ≤ end }
    ensures start { result + GUID_BYTES ≡ end }
    ensures written { drop result text.new ≡ hyphenated_text lower (swap_fields bytes.now) ++ drop end text.old }
    ensures len { length text.new ≡ length text.old }
{
    // Most events belong to no activity, and nearly all are related to none.
    if is_none(bytes) {
        return place_word(text, end, b"00000000-0000-0000-0000-000000000000");
    }
    bytes_fit(bytes);
    let middle = place_word(text, end, &back_text(bytes));
    place_word(text, middle, &front_text(bytes))
}

// Its first three parts, of which each has its low byte first.
fn front_text(bytes: &[u8; 16]) -> [u8; HALF_BYTES]
    ensures { result ≡ front_digits bytes.now }
{
    [
        high_text(bytes[3]),
        low_text(bytes[3]),
        high_text(bytes[2]),
        low_text(bytes[2]),
        high_text(bytes[1]),
        low_text(bytes[1]),
        high_text(bytes[0]),
        low_text(bytes[0]),
        b'-',
        high_text(bytes[5]),
        low_text(bytes[5]),
        high_text(bytes[4]),
        low_text(bytes[4]),
        b'-',
        high_text(bytes[7]),
        low_text(bytes[7]),
        high_text(bytes[6]),
        low_text(bytes[6]),
    ]
}

// Its other parts, and the hyphens before them.
fn back_text(bytes: &[u8; 16]) -> [u8; HALF_BYTES]
    ensures { result ≡ back_digits bytes.now }
{
    [
        b'-',
        high_text(bytes[8]),
        low_text(bytes[8]),
        high_text(bytes[9]),
        low_text(bytes[9]),
        b'-',
        high_text(bytes[10]),
        low_text(bytes[10]),
        high_text(bytes[11]),
        low_text(bytes[11]),
        high_text(bytes[12]),
        low_text(bytes[12]),
        high_text(bytes[13]),
        low_text(bytes[13]),
        high_text(bytes[14]),
        low_text(bytes[14]),
        high_text(bytes[15]),
        low_text(bytes[15]),
    ]
}
