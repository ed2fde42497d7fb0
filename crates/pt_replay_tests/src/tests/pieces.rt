//! Long texts and streams, told by pieces.
use std::alloc::{AllocError, Global};

/// Bytes that stand once for each number from the second to the third, with the number in place of each `%`.
pub type Piece = (&'static [u8], u32, u32);

/// Pieces that stand once for each number from the second to the third, with the number in place of each `&`.
pub type Block = (&'static [Piece], u32, u32);

/// The pieces, one behind the other.
pub fn joined(alloc: Global, pieces: &[&[u8]]) -> Result<Vec<u8>, AllocError> {
    let mut all = Vec::new(alloc);
    put_pieces(&mut all, pieces)?;
    Ok(all)
}

/// Puts the pieces, one behind the other.
pub fn put_pieces(all: &mut Vec<u8>, pieces: &[&[u8]]) -> Result<(), AllocError> {
    for piece in pieces {
        all.extend_from_slice(piece)?;
    }
    Ok(())
}

/// The pieces, each as often as it tells, one behind the other.
pub fn repeated(alloc: Global, pieces: &[Piece]) -> Result<Vec<u8>, AllocError> {
    let mut all = Vec::new(alloc);
    for (piece, first, last) in pieces {
        for number in *first..=*last {
            put_numbered(alloc, &mut all, piece, b'%', number)?;
        }
    }
    Ok(all)
}

/// The blocks, each as often as it tells, one behind the other.
pub fn repeated_blocks(alloc: Global, blocks: &[Block]) -> Result<Vec<u8>, AllocError> {
    let mut all = Vec::new(alloc);
    for (pieces, first, last) in blocks {
        let block = repeated(alloc, pieces)?;
        for number in *first..=*last {
            put_numbered(alloc, &mut all, &block, b'&', number)?;
        }
    }
    Ok(all)
}

// The bytes with the number in place of each mark.
fn put_numbered(
    alloc: Global,
    all: &mut Vec<u8>,
    bytes: &[u8],
    mark: u8,
    number: u32,
) -> Result<(), AllocError> {
    let digits = format!(in alloc; "{number}")?;
    for byte in bytes {
        if *byte == mark {
            all.extend_from_slice(digits.as_bytes())?;
        } else {
            all.push(*byte)?;
        }
    }
    Ok(())
}
