//! Texts in UTF-16: ended by a zero unit, or with their count.
ghost use Rattle.std.specs.Prelude.{◌≡◌, ◌≢◌, ◌+◌, ◌*◌, ◌<◌, ◌≤◌, ◌↔◌, [], ◌∷◌, ◌++◌, length, take, drop, IsTrue, IsOk, OnOk, OnErr, vec_len, vec_capacity};
ghost use Rattle.pt_num.specs.declared.text.TakenText.TheVariants.{Short, NoZero};
ghost use Rattle.pt_num.specs.declared.limits.TheConstants.{TEXT_UNITS};
ghost use Rattle.ep_defs.specs.Text.{units_in};
ghost use Rattle.pt_num.specs.Texts.{text_z, text_c, are_units, units_bytes, IsTextZ, IsTextC};
ghost use Rattle.pt_num.specs.Fields.{text_z_at, text_c_at};
ghost use Rattle.pt_num.specs.Taking.{TakesText, IfUnits, counted, last_counted};

use crate::fixed::{put_u32, take_u32};
use std::alloc::AllocError;

/// A text at the front of some bytes.
#[derive(Clone, Copy, Debug, PartialEq, Eq)]
pub enum TakenText {
    /// The number of its units without the zero unit, and of its bytes with it.
    Units { count: usize, used: usize },
    /// The bytes end before the text does.
    Short,
    /// The last of the counted units is not zero.
    NoZero,
}

/// Appends the units of a text, two bytes each, and a zero unit.
pub fn put_utf16z(out: &mut Vec<u8>, units: &[u16]) -> Result<(), AllocError>
    requires few { length units.now ≤ TEXT_UNITS }
    requires no_zero { IsTrue (are_units units.now) }
    ensures ok { OnOk result (out.new.items ≡ out.old.items ++ text_z units.now) }
    ensures form { IsTextZ units.now (text_z units.now) }
    ensures err { OnErr result (out.new.items ≡ out.old.items) }
    ensures len { OnOk result (vec_len out.new ≡ vec_len out.old + 2 * length units.now + 2) }
    ensures room { vec_len out.old + 2 * length units.now + 2 ≤ vec_capacity out.old → IsOk result }
    ensures capacity { vec_capacity out.old ≤ vec_capacity out.new }
{
    out.reserve(2 * units.len() + 2)?;
    push_text(out, units);
    Ok(())
}

/// Appends the number of units of a text and its zero unit, four bytes, then the units, and the zero unit.
pub fn put_counted(out: &mut Vec<u8>, units: &[u16]) -> Result<(), AllocError>
    requires few { length units.now ≤ TEXT_UNITS }
    ensures ok { OnOk result (out.new.items ≡ out.old.items ++ text_c units.now) }
    ensures form { IsTextC units.now (text_c units.now) }
    ensures err { OnErr result (out.new.items ≡ out.old.items) }
    ensures len { OnOk result (vec_len out.new ≡ vec_len out.old + 2 * length units.now + 6) }
    ensures room { vec_len out.old + 2 * length units.now + 6 ≤ vec_capacity out.old → IsOk result }
    ensures capacity { vec_capacity out.old ≤ vec_capacity out.new }
{
    out.reserve(2 * units.len() + 6)?;
    put_u32(out, units.len() as u32 + 1)?;
    push_text(out, units);
    Ok(())
}

/// The text up to the first zero unit.
pub fn take_utf16z(bytes: &[u8]) -> TakenText
    ensures read { TakesText (text_z_at bytes.now) 0 bytes.now result }
    ensures form { IfUnits result (λ count used. IsTextZ (units_in (take (2 * count) bytes.now)) (take used bytes.now)) }
    ensures short { (result ≡ Short) ↔ IsTrue (are_units (units_in bytes.now)) }
    ensures never { result ≢ NoZero }
{
    for count in 0..bytes.len() / 2 {
        if bytes[2 * count] == 0 && bytes[2 * count + 1] == 0 {
            return TakenText::Units {
                count,
                used: 2 * count + 2,
            };
        }
    }
    TakenText::Short
}

/// The text whose count stands in the first four bytes.
pub fn take_counted(bytes: &[u8]) -> TakenText
    ensures read { TakesText (text_c_at bytes.now) 4 bytes.now result }
    ensures form { IfUnits result (λ count used. IsTextC (units_in (take (2 * count) (drop 4 bytes.now))) (take used bytes.now)) }
    ensures short { (result ≡ Short) ↔ (length bytes.now < 4 + 2 * counted bytes.now) }
    ensures no_zero { (result ≡ NoZero)
        ↔ ((4 + 2 * counted bytes.now ≤ length bytes.now) × (0 < counted bytes.now) × (0 < last_counted bytes.now)) }
{
    let Some(count) = take_u32(bytes) else {
        return TakenText::Short;
    };
    let count = count as usize;
    if (bytes.len() - 4) / 2 < count {
        return TakenText::Short;
    }
    if count == 0 {
        return TakenText::Units { count, used: 4 };
    }
    if bytes[2 * count + 2] != 0 || bytes[2 * count + 3] != 0 {
        return TakenText::NoZero;
    }
    TakenText::Units {
        count: count - 1,
        used: 4 + 2 * count,
    }
}

// Appends the units of a text and a zero unit, for which there is room.
fn push_text(out: &mut Vec<u8>, units: &[u16])
    requires { vec_len out.old + 2 * length units.now + 2 ≤ vec_capacity out.old }
    ensures items { out.new.items ≡ out.old.items ++ text_z units.now }
    ensures len { vec_len out.new ≡ vec_len out.old + 2 * length units.now + 2 }
    ensures capacity { vec_capacity out.new ≡ vec_capacity out.old }
{
    for unit in units {
        push_unit(out, *unit);
    }
    push_unit(out, 0);
}

fn push_unit(out: &mut Vec<u8>, unit: u16)
    requires { vec_len out.old + 2 ≤ vec_capacity out.old }
    ensures items { out.new.items ≡ out.old.items ++ units_bytes (unit ∷ []) }
    ensures len { vec_len out.new ≡ vec_len out.old + 2 }
    ensures capacity { vec_capacity out.new ≡ vec_capacity out.old }
{
    out.push_reserved((unit % 256) as u8);
    out.push_reserved((unit / 256) as u8);
}
