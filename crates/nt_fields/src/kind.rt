//! What a field holds, by its type code.
ghost use Rattle.std.specs.Prelude.{◌≡◌};
ghost use Rattle.nt_fields.specs.Kinds.{kind_of};

/// How many bytes a number has.
#[derive(Clone, Copy, Debug, PartialEq, Eq)]
pub enum Size {
    One,
    Two,
    Four,
    Eight,
}

/// What a field holds.
#[derive(Clone, Copy, Debug, PartialEq, Eq)]
pub enum FieldKind {
    /// The fields that stand inside it, one after another.
    Object,
    /// A number of four bytes, 0 or 1.
    Boolean,
    /// A unit of UTF-16.
    Char,
    /// A number in two's complement.
    Signed(Size),
    Unsigned(Size),
    /// A float of 32 bits.
    Single,
    /// A float of 64 bits.
    Double,
    /// Sixteen bytes, of which no public document says more.
    Decimal,
    /// Eight numbers of two bytes: year, month, day of the week, day, hour, minute, second and millisecond.
    Date,
    /// Sixteen bytes.
    Guid,
    /// Units of UTF-16 up to a zero unit.
    Text,
}

impl FieldKind {
    /// What a field of this type code holds (the NetTrace format document of PerfView, version 4), none where the format
    /// has no such code.
    pub fn of(code: u8) -> Option<FieldKind>
        ensures { result ≡ kind_of code }
    {
        let kind = match code {
            1 => FieldKind::Object,
            3 => FieldKind::Boolean,
            4 => FieldKind::Char,
            5 => FieldKind::Signed(Size::One),
            6 => FieldKind::Unsigned(Size::One),
            7 => FieldKind::Signed(Size::Two),
            8 => FieldKind::Unsigned(Size::Two),
            9 => FieldKind::Signed(Size::Four),
            10 => FieldKind::Unsigned(Size::Four),
            11 => FieldKind::Signed(Size::Eight),
            12 => FieldKind::Unsigned(Size::Eight),
            13 => FieldKind::Single,
            14 => FieldKind::Double,
            15 => FieldKind::Decimal,
            16 => FieldKind::Date,
            17 => FieldKind::Guid,
            18 => FieldKind::Text,
            _ => return None,
        };
        Some(kind)
    }
}
