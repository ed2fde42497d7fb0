//! The objects of items that were worked out by hand.
use super::items::{
    COUNTED, Case, DATE, Field, Given, OBJECTS, PAIR, first_missing, is_shown, lines_of, list,
};
use ep_defs::{EventDef, ItemKind, Items, TraceInfo};
use json::{Scratch, is_valid};
use pt_events::{Form, Listing};
use std::alloc::{AllocError, Global};
use std::test::Fail;

// The greatest numbers that stand as such, and those behind them; a Boolean that is none, and one that is cut.
#[test]
fn a_number_that_a_double_may_not_hold_is_a_text(rt: HostRuntime) -> Result<(), Fail> {
    let cases: [Case; 21] = [
        (5, &[0x80], r#""fields":{"n":-128}"#),
        (5, &[0x7f], r#""fields":{"n":127}"#),
        (6, &[0xff], r#""fields":{"n":255}"#),
        (7, &[0, 0x80], r#""fields":{"n":-32768}"#),
        (8, &[0xff, 0xff], r#""fields":{"n":65535}"#),
        (9, &[0, 0, 0, 0x80], r#""fields":{"n":-2147483648}"#),
        (
            10,
            &[0xff, 0xff, 0xff, 0xff],
            r#""fields":{"n":4294967295}"#,
        ),
        (
            11,
            &[0xff, 0xff, 0xff, 0xff, 0xff, 0xff, 0x1f, 0],
            r#""fields":{"n":9007199254740991}"#,
        ),
        (
            11,
            &[0, 0, 0, 0, 0, 0, 0x20, 0],
            r#""fields":{"n":"9007199254740992"}"#,
        ),
        (
            11,
            &[1, 0, 0, 0, 0, 0, 0xe0, 0xff],
            r#""fields":{"n":-9007199254740991}"#,
        ),
        (
            11,
            &[0, 0, 0, 0, 0, 0, 0xe0, 0xff],
            r#""fields":{"n":"-9007199254740992"}"#,
        ),
        (
            11,
            &[0xff, 0xff, 0xff, 0xff, 0xff, 0xff, 0xff, 0x7f],
            r#""fields":{"n":"9223372036854775807"}"#,
        ),
        (
            11,
            &[0, 0, 0, 0, 0, 0, 0, 0x80],
            r#""fields":{"n":"-9223372036854775808"}"#,
        ),
        (12, &[0, 0, 0, 0, 0, 0, 0, 0], r#""fields":{"n":0}"#),
        (
            12,
            &[0xff, 0xff, 0xff, 0xff, 0xff, 0xff, 0x1f, 0],
            r#""fields":{"n":9007199254740991}"#,
        ),
        (
            12,
            &[0, 0, 0, 0, 0, 0, 0x20, 0],
            r#""fields":{"n":"9007199254740992"}"#,
        ),
        (
            12,
            &[0xff, 0xff, 0xff, 0xff, 0xff, 0xff, 0xff, 0xff],
            r#""fields":{"n":"18446744073709551615"}"#,
        ),
        (3, &[0, 0, 0, 0], r#""fields":{"n":false}"#),
        (3, &[1, 0, 0, 0], r#""fields":{"n":true}"#),
        (3, &[2, 0, 0, 0], r#""payload":"02000000""#),
        (3, &[1, 0, 0], r#""payload":"010000""#),
    ];
    assert_eq!(rt; first_missing(rt.alloc(), Form::Json, &cases)?, None);
    Ok(())
}

#[test]
fn a_float_is_a_number_and_what_is_none_a_text(rt: HostRuntime) -> Result<(), Fail> {
    let cases: [Case; 13] = [
        (13, &[0, 0, 0xc0, 0x3f], r#""fields":{"n":1.5}"#),
        (13, &[0xcd, 0xcc, 0xcc, 0x3d], r#""fields":{"n":0.1}"#),
        (13, &[0, 0, 0x80, 0x7f], r#""fields":{"n":"inf"}"#),
        (13, &[0, 0, 0x80, 0xff], r#""fields":{"n":"-inf"}"#),
        (13, &[1, 0, 0x80, 0x7f], r#""fields":{"n":"NaN"}"#),
        (
            14,
            &[0, 0, 0, 0, 0, 0, 0xf8, 0xbf],
            r#""fields":{"n":-1.5}"#,
        ),
        (
            14,
            &[0xea, 0x8c, 0xa0, 0x39, 0x59, 0x3e, 0x29, 0x46],
            r#""fields":{"n":1e30}"#,
        ),
        (14, &[1, 0, 0, 0, 0, 0, 0, 0], r#""fields":{"n":5e-324}"#),
        (14, &[0, 0, 0, 0, 0, 0, 0, 0x80], r#""fields":{"n":-0.0}"#),
        (
            14,
            &[0, 0, 0, 0, 0, 0, 0xf0, 0x7f],
            r#""fields":{"n":"inf"}"#,
        ),
        (
            14,
            &[0, 0, 0, 0, 0, 0, 0xf0, 0xff],
            r#""fields":{"n":"-inf"}"#,
        ),
        (
            14,
            &[0, 0, 0, 0, 0, 0, 0xf8, 0xff],
            r#""fields":{"n":"NaN"}"#,
        ),
        (
            14,
            &[0, 0, 0, 0, 0, 0, 0xf0],
            r#""payload":"000000000000f0""#,
        ),
    ];
    assert_eq!(rt; first_missing(rt.alloc(), Form::Json, &cases)?, None);
    Ok(())
}

#[test]
fn long_values_are_texts(rt: HostRuntime) -> Result<(), Fail> {
    let cases: [Case; 4] = [
        (
            15,
            COUNTED,
            r#""fields":{"n":"000102030405060708090a0b0c0d0e0f"}"#,
        ),
        (16, DATE, r#""fields":{"n":"2024-02-29T23:59:58.007"}"#),
        (
            17,
            COUNTED,
            r#""fields":{"n":"03020100-0504-0706-0809-0a0b0c0d0e0f"}"#,
        ),
        (17, &[1, 2, 3], r#""payload":"010203""#),
    ];
    assert_eq!(rt; first_missing(rt.alloc(), Form::Json, &cases)?, None);
    Ok(())
}

// A letter, a quote, half of a pair and what begins a tag, with its neighbours; then texts with a space, a backslash, a quote, a
// line feed, the other half, the greatest unit that stands as it is, and three beyond it.
#[test]
fn texts_are_printable_ascii(rt: HostRuntime) -> Result<(), Fail> {
    let cases: [Case; 9] = [
        (4, &[0x41, 0], r#""fields":{"n":"A"}"#),
        (4, &[0x22, 0], r#""fields":{"n":"\u0022"}"#),
        (4, &[0x3b, 0], r#""fields":{"n":";"}"#),
        (4, &[0x3c, 0], r#""fields":{"n":"\u003c"}"#),
        (4, &[0x3d, 0], r#""fields":{"n":"="}"#),
        (4, &[0, 0xd8], r#""fields":{"n":"\ud800"}"#),
        (18, &[0, 0], r#""fields":{"n":""}"#),
        (
            18,
            &[
                0x61, 0, 0x20, 0, 0x5c, 0, 0x22, 0, 0xa, 0, 0xff, 0xdf, 0x7e, 0, 0x7f, 0, 0xe9, 0,
                0x28, 0x20, 0, 0,
            ],
            r#""fields":{"n":"a \u005c\u0022\u000a\udfff~\u007f\u00e9\u2028"}"#,
        ),
        (18, &[0x61, 0], r#""payload":"6100""#),
    ];
    assert_eq!(rt; first_missing(rt.alloc(), Form::Json, &cases)?, None);
    Ok(())
}

// Objects in objects; a name with a quote, a brace, an equals sign, a space, a backslash, a line feed and half of a pair; two
// fields of one name; no field; an object whose field stands two deeper; a payload that is too short, one that is too long,
// and a field of an unknown type.
#[test]
fn fields_are_members_of_their_objects(rt: HostRuntime) -> Result<(), Fail> {
    let cases: [(&[Field], &[u8], &str); 9] = [
        (
            OBJECTS,
            &[1, 2, 3],
            r#""fields":{"a":{"b":1,"c":{"d":2}},"e":3,"f":{}}"#,
        ),
        (
            &[(0, 6, &[34, 125, 61, 32, 92, 10, 0xd800])],
            &[7],
            r#""fields":{"\u0022}= \u005c\u000a\ud800":7}"#,
        ),
        (
            &[(0, 6, &[97]), (0, 6, &[97])],
            &[1, 2],
            r#""fields":{"a":1,"a":2}"#,
        ),
        (&[], &[], r#""fields":{}"#),
        (
            &[(0, 1, &[97]), (2, 6, &[98]), (1, 6, &[99])],
            &[1, 2],
            r#""fields":{"a":{"b":1,"c":2}}"#,
        ),
        (PAIR, &[1, 2, 3], r#""fields":{"a":1,"b":770}"#),
        (PAIR, &[1, 2], r#""payload":"0102""#),
        (PAIR, &[1, 2, 3, 4], r#""payload":"01020304""#),
        (&[(0, 19, &[110])], &[1], r#""payload":"01""#),
    ];
    for (fields, payload, want) in cases {
        assert!(rt;
            is_shown(rt.alloc(), Form::Json, fields, payload, want)?,
            "{want}"
        );
    }
    Ok(())
}

// Whether each line is a value by itself, as the kit's reader of JSON sees it.
fn are_values(alloc: Global, text: &[u8]) -> Result<bool, AllocError> {
    let mut scratch = Scratch::new(alloc);
    for line in text.split(|byte| *byte == b'\n') {
        let Ok(line) = str::from_utf8(line) else {
            return Ok(false);
        };
        if !line.is_empty() && !is_valid(line, &mut scratch)? {
            return Ok(false);
        }
    }
    Ok(true)
}

// As in the form of a report: what thread 1 loses before an event and up to the point, and what thread 2 does.
#[test]
fn what_is_lost_and_a_point_are_objects(rt: HostRuntime) -> Result<(), Fail> {
    let items = [Given::Point(30, [(1, 7), (2, 4), (1, 8)])];
    let text = lines_of(rt.alloc(), Form::Json, &items)?;
    let want = r#"{"kind":"lost","thread":1,"count":7}
{"kind":"lost","thread":2,"count":4}
{"kind":"lost","thread":1,"count":1}
{"kind":"point","stamp":30,"threads":[{"thread":1,"number":7},{"thread":2,"number":4},{"thread":1,"number":8}]}
"#;
    assert_eq!(rt; text.as_slice(), want.as_bytes());
    assert!(rt; are_values(rt.alloc(), &text)?);
    Ok(())
}

// A definition of which each part has a value of its own.
fn whole_meta(alloc: Global) -> Result<ItemKind, AllocError> {
    let provider = Items::new([80, 34].to_vec(alloc)?);
    let name = Items::new([0x263a].to_vec(alloc)?);
    Ok(ItemKind::Meta {
        id: 1,
        def: EventDef {
            provider,
            id: u32::MAX,
            version: 3,
            level: 5,
            keywords: 1 << 63,
            name,
            fields: Items::new(Vec::new(alloc)),
        },
    })
}

// Such an event of it with the stack 5.
fn whole_event(alloc: Global, number: u32) -> ItemKind {
    ItemKind::Event {
        metadata: 1,
        number,
        capture: 1 << 53,
        processor: 3,
        thread: 10,
        stack: 5,
        stamp: u64::MAX,
        activity: [0, 1, 2, 3, 4, 5, 6, 7, 8, 9, 10, 11, 12, 13, 14, 15],
        related: [
            16, 17, 18, 19, 20, 21, 22, 23, 24, 25, 26, 27, 28, 29, 30, 31,
        ],
        payload: Items::new(Vec::new(alloc)),
    }
}

// The stack 5, of twelve bytes.
fn stack(alloc: Global) -> Result<ItemKind, AllocError> {
    Ok(ItemKind::Stack {
        id: 5,
        bytes: Items::new([0, 1, 2, 3, 4, 5, 6, 7, 8, 9, 10, 11].to_vec(alloc)?),
    })
}

// A trace whose addresses have so many bytes.
fn trace(pointer_size: u32) -> ItemKind {
    ItemKind::Trace {
        info: TraceInfo {
            date: [0; 8],
            sync: 0,
            frequency: 1,
            pointer_size,
            process_id: 1,
            processors: 1,
            rate: 0,
        },
    }
}

// The lines of an event before and after a Trace object says that an address has four bytes.
fn whole_lines(alloc: Global) -> Result<Vec<u8>, AllocError> {
    let mut listing = Listing::new(alloc);
    let mut out = Vec::new(alloc);
    let items = [
        whole_meta(alloc)?,
        stack(alloc)?,
        whole_event(alloc, 1),
        trace(4),
        whole_event(alloc, 2),
    ];
    for item in items {
        list(&mut listing, Form::Json, item, &mut out);
    }
    Ok(out)
}

#[test]
fn every_part_of_an_event_stands_in_its_object(rt: HostRuntime) -> Result<(), Fail> {
    let text = whole_lines(rt.alloc())?;
    let want =
        r#"{"kind":"event","stamp":"18446744073709551615","thread":"9007199254740992","number":1,"processor":3,"thread_id":10,"provider":"P\u0022","name":"\u263a","id":4294967295,"version":3,"level":5,"keywords":"9223372036854775808","activity":"03020100-0504-0706-0809-0a0b0c0d0e0f","related":"13121110-1514-1716-1819-1a1b1c1d1e1f","stack":["0706050403020100","0b0a0908"],"fields":{}}
{"kind":"event","stamp":"18446744073709551615","thread":"9007199254740992","number":2,"processor":3,"thread_id":10,"provider":"P\u0022","name":"\u263a","id":4294967295,"version":3,"level":5,"keywords":"9223372036854775808","activity":"03020100-0504-0706-0809-0a0b0c0d0e0f","related":"13121110-1514-1716-1819-1a1b1c1d1e1f","stack":["03020100","07060504","0b0a0908"],"fields":{}}
"#;
    assert_eq!(rt; text.as_slice(), want.as_bytes());
    assert!(rt; are_values(rt.alloc(), &text)?);
    Ok(())
}
