//! The bounds of this text, each with its unit. Those of events and rules stand in `ep_defs::limits`.

/// The bytes of a line, without its line feed.
pub const LINE_BYTES: usize = 262_144;

/// The digits of a decimal number, leading zeros among them.
pub const DECIMAL_DIGITS: usize = 20;

/// The digits of a hexadecimal number.
pub const HEX_DIGITS: usize = 16;

/// The digits of an id.
pub const ID_DIGITS: usize = 32;
