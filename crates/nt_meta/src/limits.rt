//! The bounds of metadata payloads, each with its unit.

/// The greatest metadata id. Ids are positive numbers of 32 bits with a sign in the NetTrace format.
pub const LAST_ID: u32 = 2_147_483_647;

/// How many objects a field that is read may stand inside of.
pub const READ_DEPTH: u32 = 32;
