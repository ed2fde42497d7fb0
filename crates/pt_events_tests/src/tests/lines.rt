//! The lines of items that were worked out by hand.
use super::items::{
    COUNTED, Case, DATE, Field, Given, NAME, OBJECTS, PAIR, first_missing, is_shown, lines_of,
};
use pt_events::Form;
use std::test::Fail;

#[test]
fn a_number_stands_in_decimal_with_its_sign(rt: HostRuntime) -> Result<(), Fail> {
    let cases: [Case; 20] = [
        (5, &[0x80], " n=-128"),
        (5, &[0x7f], " n=127"),
        (6, &[0], " n=0"),
        (6, &[0xff], " n=255"),
        (7, &[0, 0x80], " n=-32768"),
        (7, &[0xff, 0x7f], " n=32767"),
        (8, &[0xff, 0xff], " n=65535"),
        (8, &[1, 2], " n=513"),
        (9, &[0, 0, 0, 0x80], " n=-2147483648"),
        (9, &[0xff, 0xff, 0xff, 0xff], " n=-1"),
        (10, &[0xff, 0xff, 0xff, 0xff], " n=4294967295"),
        (10, &[4, 3, 2, 1], " n=16909060"),
        (11, &[0, 0, 0, 0, 0, 0, 0, 0x80], " n=-9223372036854775808"),
        (
            11,
            &[0xff, 0xff, 0xff, 0xff, 0xff, 0xff, 0xff, 0x7f],
            " n=9223372036854775807",
        ),
        (
            12,
            &[0xff, 0xff, 0xff, 0xff, 0xff, 0xff, 0xff, 0xff],
            " n=18446744073709551615",
        ),
        (12, &[0, 0, 0, 0, 0, 0, 0x20, 0], " n=9007199254740992"),
        (3, &[0, 0, 0, 0], " n=false"),
        (3, &[1, 0, 0, 0], " n=true"),
        (3, &[2, 0, 0, 0], " payload=02000000"),
        (3, &[1, 0, 0], " payload=010000"),
    ];
    assert_eq!(rt; first_missing(rt.alloc(), Form::Lines, &cases)?, None);
    Ok(())
}

#[test]
fn a_float_stands_as_a_number_that_reads_back(rt: HostRuntime) -> Result<(), Fail> {
    let cases: [Case; 12] = [
        (13, &[0, 0, 0xc0, 0x3f], " n=1.5"),
        (13, &[0xcd, 0xcc, 0xcc, 0x3d], " n=0.1"),
        (13, &[0, 0, 0x80, 0x7f], " n=inf"),
        (13, &[0, 0, 0x80, 0xff], " n=-inf"),
        (13, &[1, 0, 0x80, 0x7f], " n=NaN"),
        (13, &[0, 0, 0xc0, 0xff], " n=NaN"),
        (14, &[0, 0, 0, 0, 0, 0, 0xf8, 0xbf], " n=-1.5"),
        (
            14,
            &[0x9a, 0x99, 0x99, 0x99, 0x99, 0x99, 0xb9, 0x3f],
            " n=0.1",
        ),
        (14, &[0, 0, 0, 0, 0, 0, 0, 0x80], " n=-0.0"),
        (14, &[0, 0, 0, 0, 0, 0, 0xf0, 0x7f], " n=inf"),
        (14, &[0, 0, 0, 0, 0, 0, 0xf8, 0x7f], " n=NaN"),
        (14, &[0, 0, 0, 0, 0, 0, 0xf0], " payload=000000000000f0"),
    ];
    assert_eq!(rt; first_missing(rt.alloc(), Form::Lines, &cases)?, None);
    Ok(())
}

#[test]
fn long_values_have_their_usual_forms(rt: HostRuntime) -> Result<(), Fail> {
    let cases: [Case; 4] = [
        (15, COUNTED, " n=000102030405060708090a0b0c0d0e0f"),
        (16, DATE, " n=2024-02-29T23:59:58.007"),
        (17, COUNTED, " n=03020100-0504-0706-0809-0a0b0c0d0e0f"),
        (17, &[1, 2, 3], " payload=010203"),
    ];
    assert_eq!(rt; first_missing(rt.alloc(), Form::Lines, &cases)?, None);
    Ok(())
}

// A letter; a quote; an empty text; a text with a space, a backslash, a line feed, a lone surrogate and the least and the
// greatest units that stand as they are; and one without an end.
#[test]
fn texts_of_strangers_are_escaped(rt: HostRuntime) -> Result<(), Fail> {
    let cases: [Case; 6] = [
        (4, &[65, 0], " n=\"A\""),
        (4, &[34, 0], " n=\"\\u0022\""),
        (18, &[0, 0], " n=\"\""),
        (
            18,
            &[97, 0, 32, 0, 92, 0, 10, 0, 0, 0xd8, 126, 0, 127, 0, 0, 0],
            " n=\"a \\u005c\\u000a\\ud800~\\u007f\"",
        ),
        (18, &[97, 0], " payload=6100"),
        (18, &[97, 0, 0], " payload=610000"),
    ];
    assert_eq!(rt; first_missing(rt.alloc(), Form::Lines, &cases)?, None);
    Ok(())
}

// A name with a letter, an equals sign, a space and a backslash; then the objects.
#[test]
fn names_are_escaped_and_objects_stand_between_braces(rt: HostRuntime) -> Result<(), Fail> {
    let cases: [(&[Field], &[u8], &str); 2] = [
        (
            &[(0, 6, &[97, 61, 32, 92])],
            &[7],
            " a\\u003d\\u0020\\u005c=7",
        ),
        (OBJECTS, &[1, 2, 3], " a={ b=1 c={ d=2 } } e=3 f={ }"),
    ];
    for (fields, payload, want) in cases {
        assert!(rt;
            is_shown(rt.alloc(), Form::Lines, fields, payload, want)?,
            "{want}"
        );
    }
    Ok(())
}

// A byte and a number of two bytes; no fields; and a field of an unknown type.
#[test]
fn a_payload_that_does_not_fit_stands_whole(rt: HostRuntime) -> Result<(), Fail> {
    let cases: [(&[Field], &[u8], &str); 6] = [
        (PAIR, &[1, 2, 3], " a=1 b=770"),
        (PAIR, &[1, 2], " payload=0102"),
        (PAIR, &[1, 2, 3, 4], " payload=01020304"),
        (PAIR, &[], " payload="),
        (&[], &[], ""),
        (&[(0, 19, NAME)], &[1], " payload=01"),
    ];
    for (fields, payload, want) in cases {
        assert!(rt;
            is_shown(rt.alloc(), Form::Lines, fields, payload, want)?,
            "{want}"
        );
    }
    Ok(())
}

// Thread 1 leaves out 2 and 3, and then 5 to 7 up to the point; thread 2 leaves out 1 to 4 there, and nothing after it.
#[test]
fn what_is_lost_stands_where_it_is_lost(rt: HostRuntime) -> Result<(), Fail> {
    let items = [
        Given::Meta,
        Given::Event(10, 1, 1),
        Given::Event(20, 1, 4),
        Given::Point(30, [(1, 7), (2, 4), (1, 8)]),
        Given::Event(40, 2, 5),
        Given::Event(50, 1, 8),
    ];
    let text = lines_of(rt.alloc(), Form::Lines, &items)?;
    let want = "event         10          1          1 P E
lost          1          2
event         20          1          4 P E
lost          1          3
lost          2          4
lost          1          1
point         30          3
event         40          2          5 P E
lost          1 4294967295
event         50          1          8 P E
";
    assert_eq!(rt; text.as_slice(), want.as_bytes());
    Ok(())
}

// The second definition has the first one's id.
#[test]
fn an_item_that_is_refused_has_no_line(rt: HostRuntime) -> Result<(), Fail> {
    let items = [
        Given::Meta,
        Given::Event(10, 1, 1),
        Given::Meta,
        Given::Event(20, 1, 2),
    ];
    let text = lines_of(rt.alloc(), Form::Lines, &items)?;
    assert_eq!(rt;
        text.as_slice(),
        b"event         10          1          1 P E\n".as_slice()
    );
    Ok(())
}
