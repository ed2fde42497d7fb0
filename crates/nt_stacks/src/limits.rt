//! The bounds of this crate.

/// How many stacks can have ids at a time. Ids run from 1 on and are signed numbers of 32 bits in the NetTrace format.
pub const MOST_STACKS: usize = 2_147_483_647;

/// How many stacks are found without a look into the map, at most.
pub(crate) const PLACES: usize = 64;

/// The bytes of a frame.
pub(crate) const WORD_BYTES: usize = 8;

/// Spreads frames over places: 2 ^ 64 by the golden ratio, as an odd number.
pub(crate) const PLACE_SPREAD: u64 = 0x9e37_79b9_7f4a_7c15;
