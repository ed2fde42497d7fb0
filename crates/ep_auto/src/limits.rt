//! What stands for a field that is absent or empty. The bound on the parts of a text is `ep_defs::limits::RULES`.

/// All keywords of a provider.
pub const EVERY_KEYWORD: u64 = u64::MAX;

/// Level 5, verbose: all of a provider's levels.
pub const VERBOSE: u32 = 5;
