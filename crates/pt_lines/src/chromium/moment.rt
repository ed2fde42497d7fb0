//! When something was.
ghost use Rattle.std.specs.Prelude.{◌≡◌, ◌++◌, ◌<◌, ◌≤◌, ◌^◌, ◌*◌, codes, drop, length, IfSome, OnOk};
ghost use Rattle.pt_lines.specs.declared.chromium.moment.TheConstants.{TIME_BYTES};
ghost use Rattle.pt_lines.specs.Chromium as texts;
ghost use Rattle.pt_lines.specs.Chromium.{microseconds, moment_text};

use crate::json::value::put_integer;
use crate::limits::NANOSECONDS;
use crate::origin::Origin;
use crate::place::{place_three, place_word};
use crate::value::{put_digits, put_places};
use pt_print::put_word;
use std::alloc::AllocError;

/// Appends the members of a stamp and of its process.
pub fn put_moment(out: &mut Vec<u8>, origin: Origin, stamp: u64) -> Result<(), AllocError>
    ensures { OnOk result (out.new.items ≡ out.old.items ++ moment_text origin stamp) }
{
    put_time(out, origin.frequency, stamp)?;
    put_word(out, ",\"pid\":")?;
    put_integer(out, u64::from(origin.process))
}

/// Appends the member of a stamp.
pub fn put_time(out: &mut Vec<u8>, frequency: u64, stamp: u64) -> Result<(), AllocError>
    ensures { OnOk result (out.new.items ≡ out.old.items ++ (codes "\"ts\":" ++ microseconds (texts.nanoseconds frequency stamp))) }
{
    put_word(out, "\"ts\":")?;
    put_microseconds(out, nanoseconds(frequency, stamp))
}

/// How many bytes the member of a stamp of so few nanoseconds fills at most behind a comma: its name 6, 20 digits, and those behind
/// the point.
pub const TIME_BYTES: usize = 30;

/// Writes the member of a stamp of so many nanoseconds behind a comma.
pub fn place_time(text: &mut [u8], end: usize, nanos: u64) -> usize
    requires within { end ≤ length text.old }
    requires room { TIME_BYTES ≤ end }
    ensures before { result ≤ end }
    ensures written { drop result text.new ≡ codes ",\"ts\":" ++ (microseconds nanos ++ drop end text.old) }
    ensures len { length text.new ≡ length text.old }
{
    let fraction = place_three(text, end, (nanos % 1000) as u16);
    let point = place_word(text, fraction, b".");
    let start = itoa::write_digits(nanos / 1000, text, point);
    place_word(text, start, b",\"ts\":")
}

/// A stamp in nanoseconds, where they fit eight bytes, as those of five hundred years do.
pub fn few_nanoseconds(frequency: u64, stamp: u64) -> Option<u64>
    ensures { IfSome result (λ nanos. nanos ≡ texts.nanoseconds frequency stamp) }
{
    match u64::try_from(nanoseconds(frequency, stamp)) {
        Ok(nanos) => Some(nanos),
        Err(_) => None,
    }
}

// A stamp in nanoseconds, where so many ticks make a second.
fn nanoseconds(frequency: u64, stamp: u64) -> u128
    ensures { result ≡ texts.nanoseconds frequency stamp }
{
    if frequency == 0 || frequency == NANOSECONDS {
        return u128::from(stamp);
    }
    u128::from(stamp) * u128::from(NANOSECONDS) / u128::from(frequency)
}

// Appends nanoseconds as microseconds.
fn put_microseconds(out: &mut Vec<u8>, nanos: u128) -> Result<(), AllocError>
    ensures { OnOk result (out.new.items ≡ out.old.items ++ microseconds nanos) }
{
    let Ok(few) = u64::try_from(nanos) else {
        return put_many(out, nanos);
    };
    put_digits(out, few / 1000)?;
    out.push(b'.')?;
    put_places(out, 3, (few % 1000) as u16)
}

// So it is with any count of them, in steps that take longer.
fn put_many(out: &mut Vec<u8>, nanos: u128) -> Result<(), AllocError>
    ensures { OnOk result (out.new.items ≡ out.old.items ++ microseconds nanos) }
{
    let mut buffer = itoa::Buffer::new();
    out.extend_from_slice(buffer.format(nanos / 1000).as_bytes())?;
    out.push(b'.')?;
    put_places(out, 3, (nanos % 1000) as u16)
}
