//! What the link of a session took, behind the reply of 28 bytes.
use ep_defs::{Item, ItemKind};
use nt_read::{ReadFault, ReadKind, TraceReader};
use std::alloc::Global;

// How the bytes of a stream are read.
#[derive(Clone, Copy)]
enum Reading {
    // They are a whole stream, in which so many points tell of an event and so many events are of thread 0.
    Whole { points: usize, described: usize },
    // A stream begins with them and goes on.
    Part,
    // They are something else.
    None,
}

/// Whether a stream begins with this and goes on.
pub(super) fn is_part(alloc: Global, taken: &[u8]) -> bool {
    matches!(reading_of(alloc, taken), Reading::Part)
}

/// How many points of this tell of an event, where it is a whole stream.
pub(super) fn points_in(alloc: Global, taken: &[u8]) -> usize {
    match reading_of(alloc, taken) {
        Reading::Whole { points, .. } => points,
        Reading::Part | Reading::None => 0,
    }
}

/// How many definitions this describes, where it is a whole stream.
pub(super) fn described_in(alloc: Global, taken: &[u8]) -> Option<usize> {
    match reading_of(alloc, taken) {
        Reading::Whole { described, .. } => Some(described),
        Reading::Part | Reading::None => None,
    }
}

fn reading_of(alloc: Global, taken: &[u8]) -> Reading {
    let Some(stream) = taken.get(28..) else {
        return Reading::None;
    };
    let mut reader = TraceReader::new(alloc);
    let mut items = Vec::new(alloc);
    let fed = reader.feed(stream, &mut items);
    let whole = Reading::Whole {
        points: points_of(&items),
        described: described_of(&items),
    };
    judged(fed, reader.finish(), whole)
}

fn judged(fed: Result<(), ReadFault>, end: Result<(), ReadFault>, whole: Reading) -> Reading {
    match (fed, end) {
        (Ok(()), Ok(())) => whole,
        (
            Ok(()),
            Err(
                ReadFault::Bad {
                    kind: ReadKind::Truncated,
                    ..
                },
            ),
        ) => Reading::Part,
        _ => Reading::None,
    }
}

fn points_of(items: &[Item]) -> usize {
    let mut points = 0usize;
    for item in items {
        if tells(item) {
            points = points.saturating_add(1);
        }
    }
    points
}

fn described_of(items: &[Item]) -> usize {
    let mut described = 0usize;
    for item in items {
        if describes(item) {
            described = described.saturating_add(1);
        }
    }
    described
}

// Whether it is an event of thread 0.
fn describes(item: &Item) -> bool {
    matches!(&item.kind, ItemKind::Event { thread: 0, .. })
}

// Whether it is a point that tells of a thread's event.
fn tells(item: &Item) -> bool {
    match &item.kind {
        ItemKind::Point { threads, .. } => has_event(threads.as_slice()),
        _ => false,
    }
}

// Whether a thread's last event has a number.
fn has_event(threads: &[(u64, u32)]) -> bool {
    let mut has = false;
    for (_thread, number) in threads {
        has = has | (*number > 0);
    }
    has
}
