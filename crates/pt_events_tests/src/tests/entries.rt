//! Trace events that were worked out by hand.
use super::items::{Case, Field, Given, OBJECTS, first_missing, is_shown, lines_of, list};
use ep_defs::{EventDef, ItemKind, Items, TraceInfo};
use pt_events::{Form, Listing};
use std::alloc::{AllocError, Global};
use std::test::Fail;

// Numbers, texts of strangers and a payload that is cut, as in the form of objects.
#[test]
fn the_fields_of_an_event_stand_under_its_arguments(rt: HostRuntime) -> Result<(), Fail> {
    let cases: [Case; 5] = [
        (6, &[0xff], r#""fields":{"n":255}"#),
        (
            12,
            &[0, 0, 0, 0, 0, 0, 0x20, 0],
            r#""fields":{"n":"9007199254740992"}"#,
        ),
        (4, &[34, 0], r#""fields":{"n":"\u0022"}"#),
        (
            18,
            &[
                0x3c, 0, 0x2f, 0, 0x73, 0, 0x3e, 0, 0x0a, 0, 0xff, 0xdf, 0, 0,
            ],
            r#""fields":{"n":"\u003c/s>\u000a\udfff"}"#,
        ),
        (18, &[0x61, 0], r#""payload":"6100""#),
    ];
    assert_eq!(rt; first_missing(rt.alloc(), Form::Chromium, &cases)?, None);
    let fields = r#""fields":{"a":{"b":1,"c":{"d":2}},"e":3,"f":{}}"#;
    let is_nested = is_shown(rt.alloc(), Form::Chromium, OBJECTS, &[1, 2, 3], fields)?;
    assert!(rt; is_nested);
    Ok(())
}

// What is lost of two threads up to a point, as in the other forms; each counter has the stamp of the point.
#[test]
fn what_is_lost_is_a_counter_of_its_thread(rt: HostRuntime) -> Result<(), Fail> {
    let items = [Given::Point(30, [(1, 7), (2, 4), (1, 8)])];
    let text = lines_of(rt.alloc(), Form::Chromium, &items)?;
    let want = r#",
{"name":"lost","ph":"C","id":1,"ts":0.030,"pid":0,"tid":1,"args":{"count":7}},
{"name":"lost","ph":"C","id":2,"ts":0.030,"pid":0,"tid":2,"args":{"count":4}},
{"name":"lost","ph":"C","id":1,"ts":0.030,"pid":0,"tid":1,"args":{"count":1}},
{"name":"point","ph":"i","s":"p","ts":0.030,"pid":0,"args":{"threads":3}}"#;
    assert_eq!(rt; text.as_slice(), want.as_bytes());
    Ok(())
}

// What a Trace object says: so many ticks make a second.
fn trace(frequency: u64) -> ItemKind {
    ItemKind::Trace {
        info: TraceInfo {
            date: [0; 8],
            sync: 0,
            frequency,
            pointer_size: 8,
            process_id: 4711,
            processors: 1,
            rate: 0,
        },
    }
}

// The object of a point with this stamp.
fn point_at(alloc: Global, frequency: u64, stamp: u64) -> Result<Vec<u8>, AllocError> {
    let mut listing = Listing::new(alloc);
    let mut out = Vec::new(alloc);
    let point = ItemKind::Point {
        stamp,
        threads: Items::new(Vec::new(alloc)),
    };
    list(&mut listing, Form::Chromium, trace(frequency), &mut out);
    list(&mut listing, Form::Chromium, point, &mut out);
    Ok(out)
}

// Whether a point with this stamp is at these microseconds.
fn is_at(alloc: Global, frequency: u64, stamp: u64, want: &str) -> Result<bool, AllocError> {
    let text = format!(in alloc;
        ",\n{{\"name\":\"point\",\"ph\":\"i\",\"s\":\"p\",\"ts\":{want},\"pid\":4711,\"args\":{{\"threads\":0}}}}"
    )?;
    Ok(point_at(alloc, frequency, stamp)?.as_slice() == text.as_bytes())
}

// A clock of nanoseconds, one that is told by no frequency, the one of Windows, one that has no whole number of nanoseconds in
// a tick, and the slowest with the greatest stamp.
#[test]
fn a_stamp_is_told_in_microseconds(rt: HostRuntime) -> Result<(), Fail> {
    let cases: [(u64, u64, &str); 8] = [
        (1_000_000_000, 0, "0.000"),
        (1_000_000_000, 999, "0.999"),
        (1_000_000_000, 1_234_567, "1234.567"),
        (1_000_000_000, u64::MAX, "18446744073709551.615"),
        (0, 1_002, "1.002"),
        (10_000_000, 3, "0.300"),
        (3, 2, "666666.666"),
        (1, u64::MAX, "18446744073709551615000000.000"),
    ];
    for (frequency, stamp, want) in cases {
        assert!(rt; is_at(rt.alloc(), frequency, stamp, want)?, "{want}");
    }
    Ok(())
}

// The object of an event of this name and this activity.
fn event_named(alloc: Global, name: &str, activity: [u8; 16]) -> Result<Vec<u8>, AllocError> {
    let mut units = Vec::new(alloc);
    for unit in name.bytes() {
        units.push(u16::from(unit))?;
    }
    let def = EventDef {
        provider: Items::new([80, 34].to_vec(alloc)?),
        id: 1,
        version: 0,
        level: 4,
        keywords: 1,
        name: Items::new(units),
        fields: Items::new(Vec::new(alloc)),
    };
    let event = ItemKind::Event {
        metadata: 1,
        number: 1,
        capture: 7,
        processor: 0,
        thread: 9,
        stack: 0,
        stamp: 5,
        activity,
        related: [0; 16],
        payload: Items::new(Vec::new(alloc)),
    };
    let mut listing = Listing::new(alloc);
    let mut out = Vec::new(alloc);
    list(
        &mut listing,
        Form::Chromium,
        ItemKind::Meta { id: 1, def },
        &mut out,
    );
    list(&mut listing, Form::Chromium, event, &mut out);
    Ok(out)
}

// Whether such an event has this name and these members of its phase.
fn is_phase(
    alloc: Global,
    name: &str,
    activity: [u8; 16],
    want: (&str, &str),
) -> Result<bool, AllocError> {
    let (shown, phase) = want;
    let text = format!(in alloc;
        ",\n{{\"name\":\"{shown}\",\"cat\":\"P\\u0022\",{phase},\"ts\":0.005,\"pid\":0,\"tid\":7,\"args\":{{\"number\":1,\"fields\":{{}}}}}}"
    )?;
    Ok(event_named(alloc, name, activity)?.as_slice() == text.as_bytes())
}

const ACTIVITY: [u8; 16] = [0, 1, 2, 3, 4, 5, 6, 7, 8, 9, 10, 11, 12, 13, 14, 15];

const INSTANT: &str = r#""ph":"i","s":"t""#;

const BEGIN: &str = r#""ph":"b","id":"03020100-0504-0706-0809-0a0b0c0d0e0f""#;

const END: &str = r#""ph":"e","id":"03020100-0504-0706-0809-0a0b0c0d0e0f""#;

// A start and a stop, both ends in one name, an end alone, a name that is too short or has another letter, no activity, and a
// quote and a line feed before the end.
#[test]
fn a_start_and_a_stop_of_an_activity_are_the_ends_of_a_span(rt: HostRuntime) -> Result<(), Fail> {
    let cases: [(&str, [u8; 16], (&str, &str)); 12] = [
        ("RequestStart", ACTIVITY, ("Request", BEGIN)),
        ("RequestStop", ACTIVITY, ("Request", END)),
        ("StopStart", ACTIVITY, ("Stop", BEGIN)),
        ("StartStop", ACTIVITY, ("Start", END)),
        ("Start", ACTIVITY, ("", BEGIN)),
        ("Stop", ACTIVITY, ("", END)),
        ("", ACTIVITY, ("", INSTANT)),
        ("top", ACTIVITY, ("top", INSTANT)),
        ("Restart", ACTIVITY, ("Restart", INSTANT)),
        ("StopRequest", ACTIVITY, ("StopRequest", INSTANT)),
        ("RequestStart", [0; 16], ("RequestStart", INSTANT)),
        ("\"\nStop", ACTIVITY, (r"\u0022\u000a", END)),
    ];
    for (name, activity, want) in cases {
        assert!(rt; is_phase(rt.alloc(), name, activity, want)?, "{name}");
    }
    Ok(())
}
