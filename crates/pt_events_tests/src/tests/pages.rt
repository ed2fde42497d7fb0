//! Pages of HTML: of streams that come whole, cut or with a fault, and of texts that would leave their place in it.
use super::items::{Case, Field, event, first_missing, is_shown, list};
use super::streams::{STREAM, run_events};
use ep_defs::{EventDef, ItemKind, Items, Units};
use pt_command::status::{DONE, READ_FAULT, REFUSED, WRITE_FAULT};
use pt_events::{Form, Listing};
use std::alloc::{AllocError, Global};
use std::test::Fail;

// The object of the event, that of the point, and what stands behind them.
const EVENT: &str =
    r#"{"kind":"event","stamp":100,"thread":1,"number":1,"processor":0,"thread_id":1,"provider":"P","name":"E","id":1,"version":0,"level":4,"keywords":1,"activity":"00000000-0000-0000-0000-000000000000","related":"00000000-0000-0000-0000-000000000000","stack":[],"fields":{}}
"#;

const POINT: &str = r#",{"kind":"point","stamp":200,"threads":[{"thread":1,"number":1}]}
"#;

const TAIL: &str = "]</script>\n</body>\n</html>\n";

// The objects of what ends before this offset.
fn objects_before(offset: usize) -> (&'static str, &'static str) {
    if offset < 256 {
        ("", "")
    } else if offset < 309 {
        (EVENT, "")
    } else {
        (EVENT, POINT)
    }
}

// The page of this much of the stream.
fn page_of(alloc: Global, length: usize) -> Result<String, AllocError> {
    let head = Form::Page.head();
    let (event, point) = objects_before(length);
    if length == 310 {
        return format!(in alloc; "{head}{event}{point}{TAIL}");
    }
    format!(in alloc;
        "{head}{event}{point}]</script>\n<script type=\"application/json\" id=\"error\">{{\"kind\":\"error\",\"offset\":{length},\"error\":\"Truncated\"}}\n</script>\n</body>\n</html>\n"
    )
}

// Whether this much of the stream, read in pieces of at most so many bytes, comes to its page.
fn has_page(alloc: Global, length: usize, most: usize) -> Result<bool, AllocError> {
    let bytes = &STREAM[..length.min(310)];
    let run = run_events(alloc, Form::Page, bytes, most, (0, 0))?;
    let text = page_of(alloc, length)?;
    let end = if length == 310 {
        (DONE, 0)
    } else {
        (REFUSED, length as u64)
    };
    Ok((run.end, run.written.as_slice()) == (end, text.as_bytes()))
}

#[test]
fn a_stream_that_is_cut_is_a_page_that_says_so(rt: HostRuntime) -> Result<(), Fail> {
    for length in 0..=310 {
        assert!(rt;
            has_page(rt.alloc(), length, 310)?,
            "cut after {length} bytes"
        );
    }
    Ok(())
}

#[test]
fn a_page_is_the_same_in_any_pieces(rt: HostRuntime) -> Result<(), Fail> {
    for most in [1, 7, 256] {
        assert!(rt; has_page(rt.alloc(), 310, most)?, "{most} bytes in a read");
    }
    Ok(())
}

// It opens the element of data at its end, and takes nothing from another place.
#[test]
fn the_head_opens_the_data_and_loads_nothing(rt: HostRuntime) -> Result<(), Fail> {
    let head = Form::Page.head();
    assert!(rt; head.ends_with("<script type=\"application/json\" id=\"items\">["));
    for word in ["innerHTML", "src=", "href=", "url(", "import", "fetch"] {
        assert!(rt; !head.contains(word), "{word}");
    }
    Ok(())
}

// Whether a run with this fault ends so and writes this behind so much of the head.
fn fails_so(
    alloc: Global,
    fails: (u64, u64),
    status: u8,
    want: [&str; 4],
) -> Result<bool, AllocError> {
    let run = run_events(alloc, Form::Page, &STREAM, 256, fails)?;
    let [head, event, point, part] = want;
    let text = format!(in alloc; "{head}{event}{point}{part}")?;
    Ok((run.end, run.written.as_slice()) == ((status, 0), text.as_bytes()))
}

// The first and the second read; then the writes of the head, of each object, and of what stands behind them, each of which
// takes four bytes.
#[test]
fn each_fault_leaves_a_first_part(rt: HostRuntime) -> Result<(), Fail> {
    let head = Form::Page.head();
    let cases: [((u64, u64), u8, [&str; 4]); 6] = [
        ((1, 0), READ_FAULT, [head, "", "", ""]),
        ((2, 0), READ_FAULT, [head, EVENT, "", ""]),
        ((0, 1), WRITE_FAULT, ["", "", "", "<!DO"]),
        ((0, 2), WRITE_FAULT, [head, "", "", "{\"ki"]),
        ((0, 3), WRITE_FAULT, [head, EVENT, "", ",{\"k"]),
        ((0, 4), WRITE_FAULT, [head, EVENT, POINT, "]</s"]),
    ];
    for (fails, status, want) in cases {
        assert!(rt; fails_so(rt.alloc(), fails, status, want)?, "{fails:?}");
    }
    Ok(())
}

// The units of an ASCII text, and these behind them.
fn units(alloc: Global, text: &str, more: &[u16]) -> Result<Units, AllocError> {
    let mut units = Vec::new(alloc);
    for byte in text.as_bytes() {
        units.push(u16::from(*byte))?;
    }
    units.extend_from_slice(more)?;
    Ok(Items::new(units))
}

// A definition whose provider ends a script and begins one, and whose name begins a comment.
fn hostile(alloc: Global) -> Result<ItemKind, AllocError> {
    Ok(ItemKind::Meta {
        id: 1,
        def: EventDef {
            provider: units(alloc, "</script><script>alert(1)</script>", &[])?,
            id: 1,
            version: 0,
            level: 4,
            keywords: 1,
            name: units(alloc, "<!--\"'&\\", &[0, 10, 0xd800, 0x2028])?,
            fields: Items::new(Vec::new(alloc)),
        },
    })
}

// The line of an event of it.
fn hostile_line(alloc: Global) -> Result<Vec<u8>, AllocError> {
    let mut listing = Listing::new(alloc);
    let mut out = Vec::new(alloc);
    list(&mut listing, Form::Page, hostile(alloc)?, &mut out);
    list(
        &mut listing,
        Form::Page,
        event(alloc, 100, 1, 1, b"")?,
        &mut out,
    );
    Ok(out)
}

#[test]
fn no_name_leaves_its_place(rt: HostRuntime) -> Result<(), Fail> {
    let line = hostile_line(rt.alloc())?;
    let want =
        r#",{"kind":"event","stamp":100,"thread":1,"number":1,"processor":0,"thread_id":9,"provider":"\u003c/script>\u003cscript>alert(1)\u003c/script>","name":"\u003c!--\u0022'&\u005c\u0000\u000a\ud800\u2028","id":1,"version":0,"level":4,"keywords":1,"activity":"00000000-0000-0000-0000-000000000000","related":"00000000-0000-0000-0000-000000000000","stack":[],"fields":{}}
"#;
    assert_eq!(rt; line.as_slice(), want.as_bytes());
    Ok(())
}

// Neither does a field, by its name or its text: a character, a text, and a name, each with what begins a tag.
#[test]
fn no_field_leaves_its_place(rt: HostRuntime) -> Result<(), Fail> {
    let cases: [Case; 3] = [
        (4, &[60, 0], r#""fields":{"n":"\u003c"}"#),
        (
            18,
            &[60, 0, 47, 0, 115, 0, 62, 0, 0, 0],
            r#""fields":{"n":"\u003c/s>"}"#,
        ),
        (18, &[60, 0], r#""payload":"3c00""#),
    ];
    assert_eq!(rt; first_missing(rt.alloc(), Form::Page, &cases)?, None);
    let fields: &[Field] = &[(0, 6, &[60, 33, 45, 45])];
    let want = r#""fields":{"\u003c!--":7}"#;
    assert!(rt; is_shown(rt.alloc(), Form::Page, fields, &[7], want)?);
    Ok(())
}
