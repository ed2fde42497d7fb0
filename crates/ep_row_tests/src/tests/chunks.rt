//! Records in a chunk, and chunks in a chain.

use ep_chunk::{Chain, Chunk, RecIn};
use std::alloc::{AllocError, Global};

/// How many chunks a chain of a test has.
const CHUNKS: u32 = 4_096;

// What the record that is read back has behind its numbers: its activity and the related one, its two frames and its payload.
const READ: [u8; 51] = [
    1, 1, 1, 1, 1, 1, 1, 1, 1, 1, 1, 1, 1, 1, 1, 1, 2, 2, 2, 2, 2, 2, 2, 2, 2, 2, 2, 2, 2, 2, 2, 2,
    2, 1, 0, 0, 0, 0, 0, 0, 3, 0, 0, 0, 0, 0, 0, 0, 250, 251, 252,
];

fn rec<'a>(number: u32, frames: &'a [u64], payload: &'a [u8]) -> RecIn<'a> {
    RecIn {
        event: 7,
        number,
        thread: 9,
        stamp: 11,
        activity: [1; 16],
        related: [2; 16],
        frames,
        payload,
    }
}

// How many of 963 bare records a chunk takes, and its bytes then; whether it takes one more, and its bytes then; its bytes
// once it is cleared, and whether it takes one then.
fn filled(alloc: Global) -> Result<(u32, usize, bool, usize, usize, bool), AllocError> {
    let mut chunk = Chunk::new(alloc)?;
    let mut held = 0u32;
    for number in 1..=963u32 {
        if chunk.append(&rec(number, &[], &[])) {
            held = held.saturating_add(1);
        }
    }
    let used = chunk.used();
    let more = chunk.append(&rec(964, &[], &[]));
    let same = chunk.used();
    chunk.clear();
    let cleared = chunk.used();
    let again = chunk.append(&rec(965, &[], &[]));
    Ok((held, used, more, same, cleared, again))
}

#[test]
fn a_chunk_holds_963_records_of_68_bytes(rt: HostRuntime) -> Result<(), AllocError> {
    assert_eq!(rt; filled(rt.alloc())?, (963, 65_484, false, 65_484, 0, true));
    Ok(())
}

// The numbers of the first of two records that stand in a chunk, the place of the next one, and the chunk's bytes; and all
// other bytes of the record.
fn read_back(alloc: Global) -> Result<Option<([u64; 6], Vec<u8>)>, AllocError> {
    let mut chunk = Chunk::new(alloc)?;
    let both = [
        chunk.append(&rec(5, &[0x0102, 3], &[250, 251, 252])),
        chunk.append(&rec(6, &[], &[])),
    ];
    let Some(first) = chunk.at(0) else {
        return Ok(None);
    };
    if both != [true, true] {
        return Ok(None);
    }
    let numbers = [
        u64::from(first.event),
        u64::from(first.number),
        first.thread,
        first.stamp,
        first.next as u64,
        chunk.used() as u64,
    ];
    let rest = [
        first.activity.as_slice(),
        first.related.as_slice(),
        first.frames,
        first.payload,
    ];
    let mut bytes = Vec::new(alloc);
    for part in rest {
        bytes.extend_from_slice(part)?;
    }
    Ok(Some((numbers, bytes)))
}

#[test]
fn a_record_is_read_back(rt: HostRuntime) -> Result<(), AllocError> {
    let wanted = ([7, 5, 9, 11, 87, 155], READ.to_vec(rt.alloc())?);
    assert_eq!(rt; read_back(rt.alloc())?, Some(wanted));
    Ok(())
}

// Whether a chunk takes the greatest record, its bytes then, and whether it takes a second one.
fn greatest(alloc: Global) -> Result<(bool, usize, bool), AllocError> {
    let mut chunk = Chunk::new(alloc)?;
    let frames = vec![in alloc; 4096u64; 100]?;
    let payload = vec![in alloc; 255u8; 60_000]?;
    let first = chunk.append(&rec(1, frames.as_slice(), payload.as_slice()));
    let used = chunk.used();
    let second = chunk.append(&rec(2, frames.as_slice(), payload.as_slice()));
    Ok((first, used, second))
}

#[test]
fn the_greatest_record_takes_60_868_bytes(rt: HostRuntime) -> Result<(), AllocError> {
    assert_eq!(rt; greatest(rt.alloc())?, (true, 60_868, false));
    Ok(())
}

// A chain of so many chunks, if it grew by one each time.
fn joined(alloc: Global) -> Result<Chain, AllocError> {
    let mut chain = Chain::empty(alloc);
    for place in 0..CHUNKS {
        let Ok(one) = Chain::one(alloc, Chunk::new(alloc)?) else {
            return Err(AllocError);
        };
        if chain.count() != place {
            return Err(AllocError);
        }
        chain.join(one);
    }
    Ok(chain)
}

// Moves each chunk of a chain into another, one by one; whether each was one chunk.
fn moved(from: &mut Chain, to: &mut Chain) -> bool {
    for place in 0..CHUNKS {
        let Some(one) = from.split_first() else {
            return false;
        };
        if one.count() != 1 || to.count() != place {
            return false;
        }
        to.join(one);
    }
    from.split_first().is_none()
}

// Whether the chain's last chunk takes a record that is found at the last place, and nothing stands behind that.
fn ends_with_its_last_chunk(chain: &mut Chain) -> bool {
    let Some(last) = chain.last_mut() else {
        return false;
    };
    let appended = last.append(&rec(1, &[], &[]));
    let used = chain.chunk(CHUNKS - 1).map_or(0, |chunk| chunk.used());
    appended && used == 68 && chain.chunk(CHUNKS).is_none()
}

// Whether the chain ends with its last chunk, its count once all was taken, the count of what was taken, whether that was moved
// back chunk by chunk, and the count then.
fn chained(alloc: Global) -> Result<(bool, u32, u32, bool, u32), AllocError> {
    let mut chain = joined(alloc)?;
    let ends = ends_with_its_last_chunk(&mut chain);
    let mut all = chain.take();
    let (none, some) = (chain.count(), all.count());
    let single = moved(&mut all, &mut chain);
    Ok((ends, none, some, single, chain.count()))
}

#[test]
fn a_chain_of_4_096_chunks_is_joined_and_split(rt: HostRuntime) -> Result<(), AllocError> {
    assert_eq!(rt; chained(rt.alloc())?, (true, 0, CHUNKS, true, CHUNKS));
    Ok(())
}
