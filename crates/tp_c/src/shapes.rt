//! What C passes by reference: plain structs, in C's layout.
ghost use Rattle.std.specs.Prelude.{◌≡◌, ◌≢◌, ◌↔◌, IsTrue, IfOk, OnOk, IsErr, true, false};
ghost use Rattle.tp_c.specs.declared.refusal.Refusal.TheVariants.{BadNames, OutOfMemory};
ghost use Rattle.tp_c.specs.Shapes as said;
ghost use Rattle.tp_c.specs.Shapes.{info_of, definition_of, fields_of};

use crate::refusal::Refusal;
use ep_defs::{Duplicate, EventDef, FieldDef, FieldList, Items, TraceInfo, Units, copies};
use std::alloc::{AllocError, Global};

/// What a stream says first of its program.
#[repr(C)]
#[derive(Drop)]
pub struct Info {
    /// Year, month, day of the week, day, hour, minute, second and millisecond.
    pub date: [u16; 8],
    /// The clock's counter at that date.
    pub sync: u64,
    /// Counts of the clock in a second.
    pub frequency: u64,
    /// In bytes.
    pub pointer_size: u32,
    pub process_id: u32,
    pub processors: u32,
    /// Expected samples in a second.
    pub rate: u32,
}

/// The numbers of a definition of an event.
#[repr(C)]
#[derive(Drop)]
pub struct Definition {
    /// One bit for each keyword of the provider.
    pub keywords: u64,
    pub id: u32,
    pub version: u32,
    /// From 1, critical, up to 5, verbose.
    pub level: u32,
}

/// A field of an event's payload. Its name stands with those of the other fields.
#[repr(C)]
#[derive(Drop)]
pub struct Field {
    /// How many objects the field stands inside of, 0 for the outermost fields.
    pub depth: u32,
    /// The units of UTF-16 of its name.
    pub name_units: u32,
    /// The type code of the NetTrace format.
    pub code: u8,
}

/// What an event has beside its frames and its payload.
#[repr(C)]
#[derive(Drop)]
pub struct EventHead {
    /// The thread that writes it.
    pub thread: u64,
    pub stamp: u64,
    pub activity: [u8; 16],
    pub related: [u8; 16],
    /// The number that `tp_define` answered for its definition.
    pub event: u32,
}

impl Info {
    /// The same, as the writer takes it.
    pub fn as_trace_info(&self) -> TraceInfo
        ensures { result ≡ info_of self.now }
    {
        TraceInfo {
            date: self.date,
            sync: self.sync,
            frequency: self.frequency,
            pointer_size: self.pointer_size,
            process_id: self.process_id,
            processors: self.processors,
            rate: self.rate,
        }
    }
}

impl Definition {
    /// The definition with these texts, in units of UTF-16, and these fields, whose names stand one after another.
    /// [`Refusal::BadNames`] where the fields' names are not exactly the units of `names`.
    pub fn with_texts(
        &self,
        alloc: Global,
        provider: &[u16],
        name: &[u16],
        fields: &[Field],
        names: &[u16],
    ) -> Result<EventDef, Refusal>
        ensures ok { IfOk result (λ def. def ≡ definition_of self.now provider.now name.now fields.now names.now) }
        ensures named { OnOk result (said.are_named fields.now names.now ≡ true) }
        ensures bad_names { (said.are_named fields.now names.now ≡ false) ↔ (result ≡ Err BadNames) }
        ensures others { IsErr result → result ≢ Err BadNames → result ≡ Err OutOfMemory }
    {
        if !are_named(fields, names) {
            return Err(Refusal::BadNames);
        }
        let def = self.with_copies(alloc, provider, name, fields, names)?;
        Ok(def)
    }

    fn with_copies(
        &self,
        alloc: Global,
        provider: &[u16],
        name: &[u16],
        fields: &[Field],
        names: &[u16],
    ) -> Result<EventDef, AllocError>
        requires { IsTrue (said.are_named fields.now names.now) }
        ensures { IfOk result (λ def. def ≡ definition_of self.now provider.now name.now fields.now names.now) }
    {
        let provider = Items::new(copies(alloc, provider)?);
        let name = Items::new(copies(alloc, name)?);
        let fields = fields_from(alloc, fields, names)?;
        Ok(EventDef {
            provider,
            id: self.id,
            version: self.version,
            level: self.level,
            keywords: self.keywords,
            name,
            fields,
        })
    }
}

// Whether the names of the fields, one after another, are exactly these units.
fn are_named(fields: &[Field], names: &[u16]) -> bool
    ensures { result ≡ said.are_named fields.now names.now }
{
    let mut rest = names;
    for field in fields {
        let units = field.name_units as usize;
        if units > rest.len() {
            return false;
        }
        rest = &rest[units..];
    }
    rest.is_empty()
}

// The fields with their names.
fn fields_from(alloc: Global, fields: &[Field], names: &[u16]) -> Result<FieldList, AllocError>
    requires { IsTrue (said.are_named fields.now names.now) }
    ensures { IfOk result (λ list. list ≡ fields_of fields.now names.now) }
{
    let mut list = Vec::with_capacity(alloc, fields.len())?;
    let mut rest = names;
    for field in fields {
        let units = field.name_units as usize;
        list.push(FieldDef {
            depth: field.depth,
            code: field.code,
            name: Items::new(copies(alloc, &rest[..units])?),
        })?;
        rest = &rest[units..];
    }
    Ok(Items::new(list))
}
