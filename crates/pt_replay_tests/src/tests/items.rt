//! Reports that were worked out by hand, of items one by one.
use ep_defs::{EventDef, ItemKind, Items, TraceInfo};
use nt_check::{CheckFault, CheckKind};
use pt_report::Report;
use std::alloc::{AllocError, Global};
use std::test::Fail;

/// An item of a stream, by what the report reads of it.
enum Told {
    Trace,
    Meta {
        id: u32,
        provider: &'static [u16],
        event: u32,
        name: &'static [u16],
    },
    Event {
        metadata: u32,
        stack: u32,
        capture: u64,
        number: u32,
    },
    Stack {
        id: u32,
        bytes: &'static [u8],
    },
    Point {
        thread: u64,
        number: u32,
    },
}

fn trace() -> ItemKind {
    ItemKind::Trace {
        info: TraceInfo {
            date: [0; 8],
            sync: 0,
            frequency: 1_000_000_000,
            pointer_size: 8,
            process_id: 1,
            processors: 1,
            rate: 0,
        },
    }
}

fn meta(
    alloc: Global,
    id: u32,
    provider: &[u16],
    event: u32,
    name: &[u16],
) -> Result<ItemKind, AllocError> {
    let provider = provider.to_vec(alloc)?;
    let name = name.to_vec(alloc)?;
    Ok(ItemKind::Meta {
        id,
        def: EventDef {
            provider: Items::new(provider),
            id: event,
            version: 0,
            level: 4,
            keywords: 1,
            name: Items::new(name),
            fields: Items::new(Vec::new(alloc)),
        },
    })
}

fn event(alloc: Global, metadata: u32, stack: u32, capture: u64, number: u32) -> ItemKind {
    ItemKind::Event {
        metadata,
        number,
        capture,
        processor: 0,
        thread: 9,
        stack,
        stamp: 100,
        activity: [0; 16],
        related: [0; 16],
        payload: Items::new(Vec::new(alloc)),
    }
}

fn stack(alloc: Global, id: u32, bytes: &[u8]) -> Result<ItemKind, AllocError> {
    let bytes = bytes.to_vec(alloc)?;
    Ok(ItemKind::Stack {
        id,
        bytes: Items::new(bytes),
    })
}

fn point(alloc: Global, thread: u64, number: u32) -> Result<ItemKind, AllocError> {
    let threads = [(thread, number)].to_vec(alloc)?;
    Ok(ItemKind::Point {
        stamp: 200,
        threads: Items::new(threads),
    })
}

fn item_of(alloc: Global, told: &Told) -> Result<ItemKind, AllocError> {
    match *told {
        Told::Trace => Ok(trace()),
        Told::Meta {
            id,
            provider,
            event,
            name,
        } => meta(alloc, id, provider, event, name),
        Told::Event {
            metadata,
            stack,
            capture,
            number,
        } => Ok(event(alloc, metadata, stack, capture, number)),
        Told::Stack { id, bytes } => stack(alloc, id, bytes),
        Told::Point { thread, number } => point(alloc, thread, number),
    }
}

/// What a report answers to each item.
type Answers = Vec<Result<(), CheckFault>>;

// The report's answer to an item.
fn answer_to(
    alloc: Global,
    report: &mut Report,
    told: &Told,
) -> Result<Result<(), CheckFault>, AllocError> {
    let item = item_of(alloc, told)?;
    Ok(report.item(&item))
}

fn answers_to(alloc: Global, report: &mut Report, items: &[Told]) -> Result<Answers, AllocError> {
    let mut answers = Vec::new(alloc);
    for told in items {
        answers.push(answer_to(alloc, report, told)?)?;
    }
    Ok(answers)
}

// The answers to more items, and the report then.
fn report_after(
    alloc: Global,
    report: &mut Report,
    items: &[Told],
) -> Result<(Answers, Vec<u8>), AllocError> {
    let answers = answers_to(alloc, report, items)?;
    Ok((answers, report.print()?))
}

fn report_of(alloc: Global, items: &[Told]) -> Result<(Answers, Vec<u8>), AllocError> {
    report_after(alloc, &mut Report::new(alloc), items)
}

/// Items, the answer to each of them, and the report.
const REPORTS: [(&[Told], &[Result<(), CheckFault>], &[u8]); 4] = [
    (
        &[
            Told::Trace,
            Told::Meta {
                id: 1,
                provider: &[80],
                event: 1,
                name: &[69],
            },
            Told::Event {
                metadata: 1,
                stack: 0,
                capture: 1,
                number: 1,
            },
            Told::Point {
                thread: 1,
                number: 1,
            },
        ],
        &[Ok(()), Ok(()), Ok(()), Ok(())],
        b"trace          8          1          1\nitems          1          1          0          1\nprovider          1 P\nevent          1          1          0 P E\nthread          1          1          1          0\n",
    ),
    // The units of `\`, a letter that is not of ASCII and a space are escaped, and no units are a hyphen. Wide numbers stand
    // whole.
    (
        &[
            Told::Meta {
                id: 1,
                provider: &[92, 233, 32],
                event: 4_294_967_295,
                name: &[],
            },
            Told::Event {
                metadata: 1,
                stack: 0,
                capture: 12_345_678_901,
                number: 7,
            },
        ],
        &[Ok(()), Ok(())],
        b"items          1          1          0          0\nprovider          1 \\u005c\\u00e9\\u0020\nevent          1 4294967295          0 \\u005c\\u00e9\\u0020 -\nthread 12345678901          1          7          6\n",
    ),
    // Events are counted by providers and by stacks.
    (
        &[
            Told::Meta {
                id: 7,
                provider: &[80],
                event: 2,
                name: &[70],
            },
            Told::Meta {
                id: 1,
                provider: &[80],
                event: 1,
                name: &[69],
            },
            Told::Stack {
                id: 3,
                bytes: &[0xAB, 1],
            },
            Told::Event {
                metadata: 7,
                stack: 3,
                capture: 1,
                number: 1,
            },
            Told::Event {
                metadata: 1,
                stack: 3,
                capture: 2,
                number: 1,
            },
        ],
        &[Ok(()), Ok(()), Ok(()), Ok(()), Ok(())],
        b"items          2          2          1          0\nprovider          2 P\nevent          1          1          0 P E\nevent          1          2          0 P F\nthread          1          1          1          0\nthread          2          1          1          0\nstack          2 ab01\n",
    ),
    // An item that is refused is not counted, and a stack without bytes has no line.
    (
        &[
            Told::Event {
                metadata: 5,
                stack: 0,
                capture: 1,
                number: 1,
            },
            Told::Stack { id: 1, bytes: &[] },
            Told::Stack { id: 1, bytes: &[2] },
            Told::Meta {
                id: 5,
                provider: &[80],
                event: 1,
                name: &[69],
            },
            Told::Event {
                metadata: 5,
                stack: 1,
                capture: 1,
                number: 1,
            },
            Told::Event {
                metadata: 5,
                stack: 2,
                capture: 1,
                number: 2,
            },
        ],
        &[
            Err(CheckFault::Bad(CheckKind::UnknownMetadata { id: 5 })),
            Ok(()),
            Err(CheckFault::Bad(CheckKind::StackTwice { id: 1 })),
            Ok(()),
            Ok(()),
            Err(CheckFault::Bad(CheckKind::UnknownStack { id: 2 })),
        ],
        b"items          1          1          1          0\nprovider          1 P\nevent          1          1          0 P E\nthread          1          1          1          0\n",
    ),
];

#[test]
fn items_that_are_taken_come_to_a_report(rt: HostRuntime) -> Result<(), Fail> {
    for (row, (items, answers, text)) in REPORTS.iter().enumerate() {
        let report = report_of(rt.alloc(), items)?;
        assert_eq!(rt;
            (report.0.as_slice(), report.1.as_slice()),
            (*answers, *text),
            "row {row}"
        );
    }
    Ok(())
}
