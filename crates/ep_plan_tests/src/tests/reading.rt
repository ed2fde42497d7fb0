//! Lines that are read, or refused at their first bad word.
use ep_defs::EventDef;
use ep_model::Step;
use ep_plan::{Line, LineFault, read_line, read_short};
use std::alloc::{AllocError, Global};

// In each row of these tables how the line prints once it is read, or its number, column and kind, and a bar stand in front
// of the line.

const GOOD: &str = "Blank|\n\
    Blank|#\n\
    Blank|# open 1 1\n\
    Step(Enter { thread: 300 })|enter 300\n\
    Step(Leave { thread: 300 })|leave 300\n\
    Step(Open { session: 1, thread: 2 })|open 1 2\n\
    Step(Close { session: 1, thread: 2 })|close 1 2\n\
    Step(Steal { session: 1, thread: 2 })|steal 1 2\n\
    Step(Show { thread: 1, session: 2 })|show 1 2\n\
    Step(End { thread: 4294967295 })|end 4294967295\n\
    Step(Give { session: 9 })|give 00000000000000000009\n\
    Step(Point { session: 3, stamp: 18446744073709551615 })|point 3 18446744073709551615\n\
    Step(Finish { session: 0, stamp: 0 })|finish 0 0\n\
    Step(Finish { session: 1, stamp: 42 })|finish 1 00000000000000000042\n\
    Step(Finish { session: 1, stamp: 18446744073709551615 })|finish 1 18446744073709551615\n\
    Step(Finish { session: 4294967295, stamp: 0 })|finish 4294967295 0\n\
    Step(Accept { session: 1, config: Config { rules: Items { items: [Rule { name: Items { items: [80] }, keywords: 1, level: 4 }] }, chunks: 16, stackwalk: true, rundown: false } })|accept 1 16 P:1:4\n\
    Step(Accept { session: 4, config: Config { rules: Items { items: [Rule { name: Items { items: [45] }, keywords: 18446744073709551615, level: 4294967295 }, Rule { name: Items { items: [80] }, keywords: 171, level: 5 }] }, chunks: 1, stackwalk: true, rundown: false } })|accept 4 1 -:ffffffffffffffff:4294967295 P:aB:005\n\
    Step(Accept { session: 2, config: Config { rules: Items { items: [Rule { name: Items { items: [65, 97, 126] }, keywords: 15, level: 0 }] }, chunks: 8, stackwalk: false, rundown: false } })|accept3 2 8 0 Aa~:000000000000000f:0\n\
    Step(Accept { session: 2, config: Config { rules: Items { items: [Rule { name: Items { items: [80] }, keywords: 0, level: 4 }] }, chunks: 8, stackwalk: true, rundown: false } })|accept3 2 8 1 P:0:4\n\
    Step(Accept { session: 2, config: Config { rules: Items { items: [Rule { name: Items { items: [80] }, keywords: 0, level: 4 }] }, chunks: 8, stackwalk: false, rundown: true } })|accept4 2 8 0 1 P:0:4\n\
    Step(Accept { session: 2, config: Config { rules: Items { items: [Rule { name: Items { items: [80] }, keywords: 0, level: 4 }] }, chunks: 8, stackwalk: true, rundown: false } })|accept4 2 8 1 00 P:0:4\n\
    Step(Begin { thread: 1, stamp: 5, write: Write { event: 2, activity: [0, 0, 0, 0, 0, 0, 0, 0, 0, 0, 0, 0, 0, 0, 0, 0], related: [0, 0, 0, 0, 0, 0, 0, 0, 0, 0, 0, 0, 0, 0, 0, 0], frames: Items { items: [] }, payload: Items { items: [] } } })|begin 1 5 2 - - - -\n\
    Step(Begin { thread: 1, stamp: 5, write: Write { event: 2, activity: [0, 1, 2, 3, 4, 5, 6, 7, 8, 9, 10, 11, 12, 13, 14, 255], related: [0, 0, 0, 0, 0, 0, 0, 0, 0, 0, 0, 0, 0, 0, 0, 0], frames: Items { items: [10, 11, 0] }, payload: Items { items: [0, 255, 16] } } })|begin 1 5 2 000102030405060708090A0b0c0d0eFf 00000000000000000000000000000000 a,00B,0 00fF10\n\
    Step(Begin { thread: 1, stamp: 5, write: Write { event: 2, activity: [0, 0, 0, 0, 0, 0, 0, 0, 0, 0, 0, 0, 0, 0, 0, 0], related: [0, 0, 0, 0, 0, 0, 0, 0, 0, 0, 0, 0, 0, 0, 0, 0], frames: Items { items: [18446744073709551615, 1] }, payload: Items { items: [] } } })|begin 1 5 2 - - ffffffffffffffff,1 -\n\
    Event { index: 1, def: EventDef { provider: Items { items: [80] }, id: 2, version: 3, level: 4, keywords: 3855, name: Items { items: [] }, fields: Items { items: [] } } }|event 1 P 2 3 4 F0f - -\n\
    Event { index: 1, def: EventDef { provider: Items { items: [77, 121, 45, 80, 44, 49] }, id: 2, version: 3, level: 4, keywords: 0, name: Items { items: [45, 45] }, fields: Items { items: [FieldDef { depth: 0, code: 3, name: Items { items: [120] } }, FieldDef { depth: 0, code: 18, name: Items { items: [121, 122] } }] } } }|event 01 My-P,1 2 3 4 0 -- x:3,yz:018";

// How the line prints that is read by its numbers alone.
const SHORT: &str = "Some(Show { thread: 1, session: 2 })|show 1 2\n\
    Some(Show { thread: 4294967295, session: 0 })|show 4294967295 00\n\
    Some(End { thread: 4294967295 })|end 4294967295\n\
    None|show x 2\n\
    None|show 1 4294967296\n\
    None|show 1\n\
    None|show 1 \n\
    None|show 1 2 \n\
    None|show 1 2 3\n\
    None|show 1  2\n\
    None|show\n\
    None|shows 1 2\n\
    None|end 4294967296\n\
    None|end -\n\
    None|end \n\
    None|end 1 2\n\
    None| end 1\n\
    None|begin 1 5 2 - - - -\n\
    None|steal 1 2\n\
    None|give 9\n\
    None|enter 9\n\
    None|event 1 P 1 0 4 1 E -\n\
    None|# end 1\n\
    None|";

const BAD_STEPS: &str = "7 1 Word| \n\
    7 1 Word| #\n\
    7 1 Word|Open 1 1\n\
    7 5 Word|open\n\
    7 6 Word|open \n\
    7 7 Word|open 1\n\
    7 10 Word|open 1 1 \n\
    7 8 Word|open 1  1\n\
    7 10 Word|open 1 1 1\n\
    7 6 Number|open x y z\n\
    7 11 Word|enter 300 1\n\
    7 14 Number|accept3 1 16 2 P:1:4\n\
    7 14 Number|accept3 1 16 P:1:4\n\
    7 15 Word|accept3 1 16 0\n\
    7 14 Number|accept4 1 16 2 1 P:1:4\n\
    7 16 Number|accept4 1 16 1 2 P:1:4\n\
    7 16 Number|accept4 1 16 1 P:1:4\n\
    7 17 Word|accept4 1 16 1 1\n\
    7 8 Number|open 1 1\r\n\
    7 8 Number|open 1 4294967296\n\
    7 6 Number|open +1 1\n\
    7 5 Number|end 000000000000000000001\n\
    7 9 Number|point 1 18446744073709551616\n\
    7 9 Number|point 1 99999999999999999999\n\
    7 12 Word|finish 1 5 #\n\
    7 18 Word|begin 1 5 1 - - -\n\
    7 19 Word|begin 1 5 1 - - - \n\
    7 19 Hex|begin 1 5 1 - - - 0\n\
    7 17 Hex|begin 1 5 1 - - , -\n\
    7 17 Hex|begin 1 5 1 - - 00000000000000000 -\n\
    7 15 Hex|begin 1 5 1 - 0 - -\n\
    7 13 Hex|begin 1 5 1 0123456789abcdef - - -\n\
    7 11 Number|begin 1 5 x y - - -\n\
    7 21 Word|begin 1 5 1 - - - - -\n\
    7 12 Word|accept 1 16\n\
    7 13 Word|accept 1 16 \n\
    7 13 Fields|accept 1 16 P\n\
    7 19 Fields|accept 1 16 P:1:4 P::4\n\
    7 19 Word|accept 1 16 P:1:4  P:1:4\n\
    7 13 Fields|accept 1 16 P:1:4294967296\n\
    7 10 Number|accept 1 x P\n\
    7 5 Number|end +1\n\
    7 5 Number|end -1\n\
    7 5 Number|end -\n\
    7 5 Number|end 1x\n\
    7 5 Number|end a\n\
    7 9 Number|point 1 000000000000000000042\n\
    7 13 Fields|accept 1 16 P:0000000000000000f:4\n\
    7 13 Fields|accept 1 16 P:10000000000000000:4\n\
    7 13 Fields|accept 1 16 P:0x1:4\n\
    7 13 Fields|accept 1 16 P:g:4\n\
    7 13 Fields|accept 1 16 P:+1:4\n\
    7 13 Fields|accept 1 16 P:-:4\n\
    7 13 Fields|accept 1 16 P:1\n\
    7 13 Fields|accept 1 16 P:1:4:\n\
    7 13 Fields|accept 1 16 P:1:4:5\n\
    7 13 Fields|accept 1 16 :1:4\n\
    7 13 Fields|accept 1 16 P:1:\n\
    7 13 Fields|accept 1 16 P:1:a\n\
    7 13 Hex|begin 1 5 1 000102030405060708090a0b0c0d0ef - - -\n\
    7 13 Hex|begin 1 5 1 000102030405060708090a0b0c0d0eff0 - - -\n\
    7 13 Hex|begin 1 5 1 000102030405060708090a0b0c0d0eff00 - - -\n\
    7 15 Hex|begin 1 5 1 - 000102030405060708090a0b0c0d0e0g - -\n\
    7 13 Hex|begin 1 5 1 -- - - -\n\
    7 17 Hex|begin 1 5 1 - - 1, -\n\
    7 17 Hex|begin 1 5 1 - - ,1 -\n\
    7 17 Hex|begin 1 5 1 - - 1,,2 -\n\
    7 17 Hex|begin 1 5 1 - - 1,- -\n\
    7 17 Hex|begin 1 5 1 - - ffffffffffffffff1,1 -\n\
    7 19 Hex|begin 1 5 1 - - - 00f\n\
    7 19 Hex|begin 1 5 1 - - - 0g\n\
    7 19 Hex|begin 1 5 1 - - - -00";

const BAD_DEFINITIONS: &str = "7 6 Word|event\n\
    7 1 Same|event 1 Pipe-Rundown 1 0 4 0 EventDescription -\n\
    7 7 EventOrder|event 0 P 1 0 4 1 E -\n\
    7 7 EventOrder|event 2 P 1 0 4 1 E -\n\
    7 7 Number|event 4294967296 P 1 0 4 1 E -\n\
    7 7 Number|event - P 1 0 4 1 E -\n\
    7 7 EventOrder|event 2 a:b x\n\
    7 9 Word|event 1 a:b 1 0 4 1 E -\n\
    7 11 Number|event 1 P - 0 4 1 E -\n\
    7 17 Hex|event 1 P 1 0 4 g E -\n\
    7 19 Word|event 1 P 1 0 4 1 a:b -\n\
    7 21 Fields|event 1 P 1 0 4 1 E a:1\n\
    7 21 Fields|event 1 P 1 0 4 1 E a:3,\n\
    7 20 Word|event 1 P 1 0 4 1 E\n\
    7 21 Word|event 1 P 1 0 4 1 E \n\
    7 23 Word|event 1 P 1 0 4 1 E - -\n\
    7 21 Fields|event 1 P 1 0 4 1 E x:2\n\
    7 21 Fields|event 1 P 1 0 4 1 E x:19\n\
    7 21 Fields|event 1 P 1 0 4 1 E x:0\n\
    7 21 Fields|event 1 P 1 0 4 1 E x:\n\
    7 21 Fields|event 1 P 1 0 4 1 E :3\n\
    7 21 Fields|event 1 P 1 0 4 1 E x\n\
    7 21 Fields|event 1 P 1 0 4 1 E x:3:4\n\
    7 21 Fields|event 1 P 1 0 4 1 E ,x:3\n\
    7 21 Fields|event 1 P 1 0 4 1 E x:3,,y:4\n\
    7 21 Fields|event 1 P 1 0 4 1 E x:+3\n\
    7 21 Fields|event 1 P 1 0 4 1 E x:c\n\
    7 9 Word|event 1 P\x7f 1 0 4 1 E -\n\
    7 9 Word|event 1 \u{e9} 1 0 4 1 E -\n\
    7 19 Word|event 1 P 1 0 4 1 E\r -";

const LATE: &str = "7 1 LateEvent|event\n\
    7 1 LateEvent|event x\n\
    7 1 LateEvent|event 1 P 1 0 4 1 E -\n\
    7 1 Word|events";

const SECOND: &str = "7 1 Same|event 2 P 1 0 4 1 E a:3\n\
    7 1 Same|event 02 P 01 00 04 0001 E a:3\n\
    7 1 Same|event 2 Pipe-Rundown 1 0 4 0 EventDescription -\n\
    7 25 Word|event 2 P 1 0 4 1 E a:3 -\n\
    7 7 EventOrder|event 1 P 1 0 4 1 E a:3\n\
    Event { index: 2, def: EventDef { provider: Items { items: [80] }, id: 1, version: 0, level: 4, keywords: 1, name: Items { items: [69] }, fields: Items { items: [FieldDef { depth: 0, code: 4, name: Items { items: [97] } }] } } }|event 2 P 1 0 4 1 E a:4";

const BEYOND: &str = "7 7 EventOrder|event 1001 P 1001 0 4 1 E -\n\
    7 7 EventOrder|event 1000 P 1001 0 4 1 E -";

// A text, a piece behind it and how often, whether a step came before, and what was read.
const LIMITS: &[Limit] = &[
    (
        "event 1 P 1 0 4 1 E f:3",
        ",f:3",
        99,
        false,
        ("fields", 0, 100),
    ),
    (
        "event 1 P 1 0 4 1 E f:3",
        ",f:3",
        100,
        false,
        ("Fields", 7, 1),
    ),
    (
        "accept 1 16 P:1:4",
        " P:1:4",
        999,
        false,
        ("rules", 0, 1000),
    ),
    (
        "accept 1 16 P:1:4",
        " P:1:4",
        1000,
        false,
        ("Word", 7, 6013),
    ),
    ("#", "x", 262_143, true, ("no more", 0, 0)),
    ("#", "x", 262_144, true, ("Long", 7, 1)),
    (
        "begin 01 5 1 - - - ",
        "00",
        131_062,
        true,
        ("bytes", 0, 131_062),
    ),
    (
        "begin 001 5 1 - - - ",
        "00",
        131_062,
        true,
        ("bytes", 0, 131_062),
    ),
    ("begin 0001 5 1 - - - ", "00", 131_062, true, ("Long", 7, 1)),
    ("event", " ", 262_140, true, ("Long", 7, 1)),
];

type Limit = (&'static str, &'static str, usize, bool, Size);

// What there are many of in a line, 0, and how many; or why it is refused, in which line, and at which column.
type Size = (&'static str, u64, u64);

// The clauses of a read line stand in no caller of this.
fn read(alloc: Global, text: &[u8], events: &[EventDef], stepped: bool) -> Result<Line, LineFault> {
    read_line(alloc, text, 7, events, stepped)
}

fn text_of(alloc: Global, read: Result<Line, LineFault>) -> Result<String, AllocError> {
    match read {
        Ok(line) => format!(in alloc; "{line:?}"),
        Err(LineFault::Bad { line, column, kind }) => format!(in alloc; "{line} {column} {kind:?}"),
        Err(LineFault::OutOfMemory) => Err(AllocError),
    }
}

fn is(text: Result<String, AllocError>, answer: &str) -> bool {
    match text {
        Ok(text) => text.as_str() == answer,
        Err(_) => false,
    }
}

// Whether the line is answered as its row says.
fn agrees(alloc: Global, row: &str, events: &[EventDef], stepped: bool) -> bool {
    match row.split_once('|') {
        Some((answer, line)) => is(
            text_of(alloc, read(alloc, line.as_bytes(), events, stepped)),
            answer,
        ),
        None => false,
    }
}

// The number of the first row, from 1, that is answered otherwise than it says; 0 if there is none.
fn differs_at(alloc: Global, table: &str, events: &[EventDef], stepped: bool) -> usize {
    for (place, row) in table.split('\n').enumerate() {
        if !agrees(alloc, row, events, stepped) {
            return place.saturating_add(1);
        }
    }
    0
}

// The same of lines that are read by their numbers alone.
fn short_differs_at(alloc: Global) -> usize {
    for (place, row) in SHORT.split('\n').enumerate() {
        if !agrees_short(alloc, row) {
            return place.saturating_add(1);
        }
    }
    0
}

fn agrees_short(alloc: Global, row: &str) -> bool {
    match row.split_once('|') {
        Some((answer, line)) => is(short_text(alloc, line.as_bytes()), answer),
        None => false,
    }
}

fn short_text(alloc: Global, line: &[u8]) -> Result<String, AllocError> {
    let short = read_short(line);
    format!(in alloc; "{short:?}")
}

// Appends the definition that the line spells.
fn define(alloc: Global, events: &mut Vec<EventDef>, line: &str) -> Result<(), AllocError> {
    if let Ok(Line::Event { def, .. }) = read(alloc, line.as_bytes(), events, false) {
        events.push(def)?;
    }
    Ok(())
}

fn second_differs_at(alloc: Global) -> Result<usize, AllocError> {
    let mut events = Vec::new(alloc);
    define(alloc, &mut events, "event 1 P 1 0 4 1 E a:3")?;
    Ok(differs_at(alloc, SECOND, &events, false))
}

fn thousand(alloc: Global) -> Result<Vec<EventDef>, AllocError> {
    let mut events = Vec::new(alloc);
    for id in 1..=1000 {
        let line = format!(in alloc; "event {id} P {id} 0 4 1 E -")?;
        define(alloc, &mut events, line.as_str())?;
    }
    Ok(events)
}

// How many definitions there are, and where lines behind them differ.
fn beyond_differs_at(alloc: Global) -> Result<(usize, usize), AllocError> {
    let events = thousand(alloc)?;
    Ok((events.len(), differs_at(alloc, BEYOND, &events, false)))
}

// A text with a piece after it this many times.
fn repeated(alloc: Global, text: &str, piece: &str, count: usize) -> Result<Vec<u8>, AllocError> {
    let mut all = Vec::from_slice(alloc, text.as_bytes())?;
    for _ in 0..count {
        all.extend_from_slice(piece.as_bytes())?;
    }
    Ok(all)
}

fn size_in(line: &Line) -> Size {
    match line {
        Line::Event { def, .. } => ("fields", 0, def.fields.as_slice().len() as u64),
        Line::Step(Step::Accept { config, .. }) => (
            "rules",
            0,
            config.rules.as_slice().len() as u64,
        ),
        Line::Step(Step::Begin { write, .. }) => (
            "bytes",
            0,
            write.payload.as_slice().len() as u64,
        ),
        _ => ("no more", 0, 0),
    }
}

fn size_of(read: Result<Line, LineFault>) -> Size {
    match read {
        Ok(line) => size_in(&line),
        Err(LineFault::Bad { line, column, kind }) => (kind.name(), line, column),
        Err(LineFault::OutOfMemory) => ("no memory", 0, 0),
    }
}

fn size_read(
    alloc: Global,
    text: &str,
    piece: &str,
    count: usize,
    stepped: bool,
) -> Result<Size, AllocError> {
    let line = repeated(alloc, text, piece, count)?;
    Ok(size_of(read(alloc, &line, &[], stepped)))
}

// The table, of which the test's proof needs no row.
fn limits() -> &'static [Limit] {
    LIMITS
}

#[test]
fn good_lines_are_read(rt: HostRuntime) {
    assert_eq!(rt; differs_at(rt.alloc(), GOOD, &[], false), 0);
}

#[test]
fn a_show_and_an_end_are_read_by_their_numbers_alone(rt: HostRuntime) {
    assert_eq!(rt; short_differs_at(rt.alloc()), 0);
}

#[test]
fn a_bad_line_is_refused_at_its_first_bad_word(rt: HostRuntime) {
    let differ = [
        differs_at(rt.alloc(), BAD_STEPS, &[], false),
        differs_at(rt.alloc(), BAD_DEFINITIONS, &[], false),
        differs_at(rt.alloc(), LATE, &[], true),
    ];
    assert_eq!(rt; differ, [0; 3]);
}

#[test]
fn a_definition_is_judged_after_its_words(rt: HostRuntime) {
    assert_eq!(rt; second_differs_at(rt.alloc()).ok(), Some(0));
}

#[test]
fn a_line_is_read_up_to_its_limits(rt: HostRuntime) {
    for (text, piece, count, stepped, size) in limits() {
        let read = size_read(rt.alloc(), text, piece, *count, *stepped);
        assert_eq!(rt; read.ok(), Some(*size));
    }
}

#[test]
fn an_event_has_at_most_the_number_1000(rt: HostRuntime) {
    assert_eq!(rt; beyond_differs_at(rt.alloc()).ok(), Some((1000, 0)));
}
