//! Definitions of events, and which of them a stream can hold.
ghost use Rattle.std.specs.Prelude.{◌≡◌};
ghost use Rattle.std.specs.List.{list_all};
ghost use Rattle.std.specs.Int.{is_in_range};
ghost use Rattle.ep_defs.specs.declared.event.TheConstants.{LAST_UNIT};
ghost use Rattle.ep_defs.specs.Event as valid;
ghost use Rattle.ep_defs.specs.Event.{is_valid_field, is_valid_event, is_same_event};

use crate::limits::{FIELD_DEPTH, FIELD_NAME_UNITS, FIELDS, NAME_UNITS};
use crate::list::{Duplicate, Items, Units};
use std::alloc::{AllocError, Global};

/// The type code of an object, whose fields stand after it (the NetTrace format document of PerfView, version 4).
pub const OBJECT_CODE: u8 = 1;

/// The type codes of the other fields run from this one, Boolean, on.
pub const FIRST_CODE: u8 = 3;

/// The last of them, String.
pub const LAST_CODE: u8 = 18;

/// The greatest unit of UTF-16.
pub const LAST_UNIT: u16 = u16::MAX;

/// A field of an event's payload, as the metadata of a NetTrace stream describes it.
#[derive(Debug, PartialEq, Eq, Drop)]
pub struct FieldDef {
    /// How many objects the field stands inside of, 0 for the outermost fields.
    pub depth: u32,
    /// The type code of the NetTrace format.
    pub code: u8,
    pub name: Units,
}

/// The fields of an event in the order of its payload. The fields inside an object stand after it, one deeper.
pub type FieldList = Items<FieldDef>;

/// The definition of an event.
#[derive(Debug, PartialEq, Eq, Drop)]
pub struct EventDef {
    pub provider: Units,
    pub id: u32,
    pub version: u32,
    /// From 1, critical, up to 5, verbose. Level 0 is always wanted.
    pub level: u32,
    /// One bit for each keyword of the provider.
    pub keywords: u64,
    pub name: Units,
    pub fields: FieldList,
}

impl Duplicate for FieldDef {
    fn copy(&self, alloc: Global) -> Result<Self, AllocError> {
        let name = self.name.copy(alloc)?;
        Ok(FieldDef {
            depth: self.depth,
            code: self.code,
            name,
        })
    }
}

impl Duplicate for EventDef {
    fn copy(&self, alloc: Global) -> Result<Self, AllocError> {
        let provider = self.provider.copy(alloc)?;
        let name = self.name.copy(alloc)?;
        let fields = self.fields.copy(alloc)?;
        Ok(EventDef {
            provider,
            id: self.id,
            version: self.version,
            level: self.level,
            keywords: self.keywords,
            name,
            fields,
        })
    }
}

impl FieldDef {
    // The test of one field, wherever it stands.
    fn is_valid(&self) -> bool
        ensures { result ≡ is_valid_field self.now }
    {
        is_type_code(self.code)
            && is_text(FIELD_NAME_UNITS, self.name.as_slice())
            && self.depth <= FIELD_DEPTH
    }
}

impl EventDef {
    /// Whether the definition can be written: it has a provider, no text holds a zero unit, the fields stand in the
    /// order of a payload, and nothing passes its bound in `limits`.
    pub fn is_valid(&self) -> bool
        ensures { result ≡ is_valid_event self.now }
    {
        let provider = self.provider.as_slice();
        !provider.is_empty()
            && is_text(NAME_UNITS, provider)
            && is_text(NAME_UNITS, self.name.as_slice())
            && are_valid_fields(self.fields.as_slice())
    }

    /// Whether both define the same event: all of their parts are equal.
    pub fn is_same(&self, other: &EventDef) -> bool
        ensures { result ≡ is_same_event self.now other.now }
    {
        self == other
    }
}

fn is_type_code(code: u8) -> bool
    ensures { result ≡ valid.is_type_code code }
{
    code == OBJECT_CODE || (FIRST_CODE..=LAST_CODE).contains(&code)
}

fn is_text(most: usize, units: &[u16]) -> bool
    ensures { result ≡ valid.is_text most units.now }
{
    units.len() <= most && has_no_zero(units)
}

fn has_no_zero(units: &[u16]) -> bool
    ensures { result ≡ list_all (λ unit. is_in_range 1 LAST_UNIT unit) units.now }
{
    units.iter().all(|unit| (1..=LAST_UNIT).contains(unit))
}

fn are_valid_fields(fields: &[FieldDef]) -> bool
    ensures { result ≡ valid.are_valid_fields fields.now }
{
    fields.len() <= FIELDS && is_each_valid(fields) && are_nested(fields)
}

fn is_each_valid(fields: &[FieldDef]) -> bool
    ensures { result ≡ list_all is_valid_field fields.now }
{
    fields.iter().all(|field| field.is_valid())
}

// Whether the fields stand in the order of a payload, the first of them outermost.
fn are_nested(fields: &[FieldDef]) -> bool
    ensures { result ≡ valid.are_nested 0 fields.now }
{
    let mut deepest = 0;
    for field in fields {
        let depth = u64::from(field.depth);
        if depth > deepest {
            return false;
        }
        deepest = if field.code == OBJECT_CODE {
            depth + 1
        } else {
            depth
        };
    }
    true
}
