//! Values at the front of bytes, by the type codes of their fields.

use crate::tests::same;
use nt_fields::{FieldKind, Taken, Value};

const BYTES: [u8; 17] = [
    0x81, 0x82, 0x83, 0x84, 0x85, 0x86, 0x87, 0x88, 1, 2, 3, 4, 5, 6, 7, 8, 9,
];

const LONG: [u8; 16] = [
    0x81, 0x82, 0x83, 0x84, 0x85, 0x86, 0x87, 0x88, 1, 2, 3, 4, 5, 6, 7, 8,
];

// What a field of this type code has at the front of the bytes, and how many of them.
type Found = Option<(Value<usize>, usize)>;

fn taken(code: u8, bytes: &[u8]) -> Found {
    let Taken { value, used } = FieldKind::of(code)?.take(bytes)?;
    Some((value, used))
}

const DATE: [u16; 8] = [
    0x8281, 0x8483, 0x8685, 0x8887, 0x0201, 0x0403, 0x0605, 0x0807,
];

// A type code, and what a field of it has at the front of the bytes.
const CODES: &[(u8, Found)] = &[
    (1, Some((Value::Object, 0))),
    (4, Some((Value::Char(0x8281), 2))),
    (5, Some((Value::Signed(-127), 1))),
    (6, Some((Value::Unsigned(129), 1))),
    (7, Some((Value::Signed(-32_127), 2))),
    (8, Some((Value::Unsigned(33_409), 2))),
    (9, Some((Value::Signed(-2_071_756_159), 4))),
    (10, Some((Value::Unsigned(2_223_211_137), 4))),
    (11, Some((Value::Signed(-8_608_764_254_683_430_271), 8))),
    (12, Some((Value::Unsigned(9_837_979_819_026_121_345), 8))),
    (13, Some((Value::Single(0x8483_8281), 4))),
    (14, Some((Value::Double(0x8887_8685_8483_8281), 8))),
    (15, Some((Value::Decimal(LONG), 16))),
    (16, Some((Value::Date(DATE), 16))),
    (17, Some((Value::Guid(LONG), 16))),
    (0, None),
    (2, None),
    (3, None),
    (18, None),
    (19, None),
];

#[test]
fn each_type_code_has_its_value(rt: HostRuntime) {
    for row in CODES {
        same(&rt, (row.0, taken(row.0, &BYTES)), *row);
    }
}

// A type code, bytes, and what a field of that code has at their front.
const JUDGED: &[(u8, &[u8], Found)] = &[
    (3, &[0, 0, 0, 0, 9], Some((Value::Boolean(false), 4))),
    (3, &[1, 0, 0, 0], Some((Value::Boolean(true), 4))),
    (3, &[1, 0, 0, 1], None),
    (18, &[0, 0], Some((Value::Text(0), 2))),
    (18, &[65, 0, 0, 0xd8, 0, 0, 7], Some((Value::Text(2), 6))),
    (18, &[65, 0, 0], None),
    (1, &[], Some((Value::Object, 0))),
    (5, &[], None),
];

#[test]
fn truths_and_texts_are_judged(rt: HostRuntime) {
    for row in JUDGED {
        same(&rt, (row.0, taken(row.0, row.1)), (row.0, row.2));
    }
}

// A type code, and a number of bytes that is too few for it.
const CUTS: &[(u8, usize)] = &[
    (3, 3),
    (4, 1),
    (7, 1),
    (8, 1),
    (9, 3),
    (10, 3),
    (11, 7),
    (12, 7),
    (13, 3),
    (14, 7),
    (15, 15),
    (16, 15),
    (17, 15),
];

#[test]
fn a_value_that_is_cut_is_none(rt: HostRuntime) {
    for row in CUTS {
        let cut = &LONG[..row.1.min(16)];
        same(&rt, (row.0, taken(row.0, cut)), (row.0, None));
    }
}
