//! The values of fields.

/// The value of a field. The units of a text are told by `T`: by their number, where the text stands in bytes.
#[derive(Clone, Copy, Debug, PartialEq, Eq)]
pub enum Value<T> {
    /// The values of the fields inside it stand after it.
    Object,
    Boolean(bool),
    /// A unit of UTF-16.
    Char(u16),
    Signed(i64),
    Unsigned(u64),
    /// The bits of a float.
    Single(u32),
    /// The bits of a float.
    Double(u64),
    Decimal([u8; 16]),
    /// Year, month, day of the week, day, hour, minute, second and millisecond.
    Date([u16; 8]),
    /// A number of four bytes, two of two bytes, each with its low byte first, and eight bytes.
    Guid([u8; 16]),
    Text(T),
}
