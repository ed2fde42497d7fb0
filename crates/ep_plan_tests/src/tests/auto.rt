//! The start-up text of a session.
use ep_auto::{AutoFault, AutoKind, a_text_is_good_or_bad, read_auto};
use ep_defs::limits::CHUNKS;
use ep_defs::{Config, Items, Rule};
use std::alloc::{AllocError, Global};

// Texts with the column and the kind of their first wrong field.
const BAD: &[(&str, u64, AutoKind)] = &[
    ("", 1, AutoKind::Name),
    (":1", 1, AutoKind::Name),
    ("P Q", 1, AutoKind::Name),
    ("P:xy", 3, AutoKind::Keywords),
    ("P:0x", 3, AutoKind::Keywords),
    ("P:0X1", 3, AutoKind::Keywords),
    ("P:0x0x1", 3, AutoKind::Keywords),
    ("P:-1", 3, AutoKind::Keywords),
    ("P:12345678123456781", 3, AutoKind::Keywords),
    ("P:0x12345678123456781", 3, AutoKind::Keywords),
    ("P:xy:zz", 3, AutoKind::Keywords),
    (":xy:zz", 1, AutoKind::Name),
    ("P::x", 4, AutoKind::Level),
    ("P:1:4294967296", 5, AutoKind::Level),
    ("P:1:+4", 5, AutoKind::Level),
    ("P:1:0x4", 5, AutoKind::Level),
    ("P:1:000000000000000000004", 5, AutoKind::Level),
    ("P:0x1f:4 ", 8, AutoKind::Level),
    (",P", 1, AutoKind::Name),
    ("P,", 3, AutoKind::Name),
    ("P,,Q", 3, AutoKind::Name),
    ("P:1:4:a=b,c d", 11, AutoKind::Name),
    ("P:1:4,Q:2:x,:3", 11, AutoKind::Level),
    ("Good:1,Bad:g,:x", 12, AutoKind::Keywords),
    ("\u{e9}", 1, AutoKind::Name),
];

// Good texts of one part, with its rule.
const GOOD: &[(&str, &[u16], u64, u32)] = &[
    ("P", &[80], u64::MAX, 5),
    ("P:", &[80], u64::MAX, 5),
    ("P::", &[80], u64::MAX, 5),
    ("P:::", &[80], u64::MAX, 5),
    ("P:1", &[80], 1, 5),
    ("P:aB:", &[80], 0xab, 5),
    ("P:0xAb:0", &[80], 0xab, 0),
    ("P::4", &[80], u64::MAX, 4),
    ("P:0:00000000000000000004", &[80], 0, 4),
    ("P:ffffffffffffffff:4294967295", &[80], u64::MAX, u32::MAX),
    ("-:0x0123456789abcdef:5:", &[45], 0x0123456789abcdef, 5),
    ("My-P:1:4:x y:z", &[77, 121, 45, 80], 1, 4),
];

// A text of four parts, and their rules.
const FOUR_PARTS: &str = "P:1:2:further:text,Q,-::3,P:0x4";

const FOUR_RULES: &[(&[u16], u64, u32)] = &[
    (&[80], 1, 2),
    (&[81], u64::MAX, 5),
    (&[45], u64::MAX, 3),
    (&[80], 4, 5),
];

// Adds a rule.
fn add_rule(
    alloc: Global,
    rules: &mut Vec<Rule>,
    name: &[u16],
    keywords: u64,
    level: u32,
) -> Result<(), AllocError> {
    let name = Items::new(name.to_vec(alloc)?);
    Ok(rules.push(Rule {
        name,
        keywords,
        level,
    })?)
}

// What is asked for by these rules, with stacks and without a rundown.
fn config(alloc: Global, parts: &[(&[u16], u64, u32)], chunks: u32) -> Result<Config, AllocError> {
    let mut rules = Vec::new(alloc);
    for part in parts {
        add_rule(alloc, &mut rules, part.0, part.1, part.2)?;
    }
    Ok(Config {
        rules: Items::new(rules),
        chunks,
        stackwalk: true,
        rundown: false,
    })
}

// Whether a text was read as the wanted configuration, and whether that can be asked for.
fn is_read(read: Result<Config, AutoFault>, wanted: &Config) -> [bool; 2] {
    match read {
        Ok(config) => [config == *wanted, config.is_valid()],
        Err(_) => [false, false],
    }
}

// Whether a text of one part is read as its rule, and as what can be asked for.
fn is_one_rule(
    alloc: Global,
    text: &[u8],
    name: &[u16],
    keywords: u64,
    level: u32,
) -> Result<[bool; 2], AllocError> {
    let wanted = config(alloc, &[(name, keywords, level)], 16)?;
    Ok(is_read(read_auto(alloc, text, 16), &wanted))
}

#[test]
fn a_part_is_a_rule(rt: HostRuntime) {
    for row in GOOD {
        let told = is_one_rule(rt.alloc(), row.0.as_bytes(), row.1, row.2, row.3);
        assert!(rt; told == Ok([true; 2]));
    }
    a_text_is_good_or_bad();
}

// Whether a text of four parts is read as their rules, and as what can be asked for.
fn is_four_rules(alloc: Global) -> Result<[bool; 2], AllocError> {
    let wanted = config(alloc, FOUR_RULES, CHUNKS)?;
    let text = FOUR_PARTS.as_bytes();
    Ok(is_read(read_auto(alloc, text, CHUNKS), &wanted))
}

#[test]
fn parts_are_rules_in_their_order(rt: HostRuntime) {
    assert!(rt; is_four_rules(rt.alloc()) == Ok([true; 2]));
}

// How many rules a text has, or why it is refused.
fn count_rules(alloc: Global, text: &[u8]) -> Result<usize, AutoFault> {
    Ok(read_auto(alloc, text, 1)?.rules.as_slice().len())
}

#[test]
fn the_first_wrong_field_is_told(rt: HostRuntime) {
    for row in BAD {
        let fault = AutoFault::Bad {
            column: row.1,
            kind: row.2,
        };
        assert!(rt; count_rules(rt.alloc(), row.0.as_bytes()) == Err(fault));
    }
}

// Adds 999 parts and what is given.
fn add_parts(text: &mut Vec<u8>, last: &[u8]) -> Result<(), AllocError> {
    for _ in 0..999 {
        text.extend_from_slice(b"P,")?;
    }
    text.extend_from_slice(last)
}

// How many rules such a text has, or why it is refused.
fn count_many(alloc: Global, last: &[u8]) -> Result<usize, AutoFault> {
    let mut text = Vec::new(alloc);
    add_parts(&mut text, last)?;
    count_rules(alloc, &text)
}

#[test]
fn a_text_has_1000_parts_at_most(rt: HostRuntime) {
    let told = [count_many(rt.alloc(), b"Q"), count_many(rt.alloc(), b"Q,")];
    let fault = AutoFault::Bad {
        column: 1,
        kind: AutoKind::Count,
    };
    assert!(rt; told == [Ok(1_000), Err(fault)]);
}
