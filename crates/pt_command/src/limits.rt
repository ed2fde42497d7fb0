//! Sizes.

/// How many bytes of an input are asked for at once.
pub const PIECE_BYTES: usize = 32_768;
