//! The numbers of this crate.

/// The distance from one lock to the next, in words and in values of at least eight bytes: a cache line of 64 bytes.
pub const STRIDE: usize = 8;

/// How often a taker looks at a word before it sleeps: about as long as a sleep and a wake take, in looks.
pub const LOOKS: u32 = 100;

/// The word of a lock that nobody has.
pub const FREE: u64 = 0;

/// The word of a lock that is taken, while nobody is known to sleep on it.
pub const TAKEN: u64 = 1;

/// The word of a lock that is taken, while others may sleep on it.
pub const AWAITED: u64 = 2;
