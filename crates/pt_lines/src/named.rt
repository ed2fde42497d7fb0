//! A definition with what the lines of its events say of it.
ghost use Rattle.std.specs.Prelude.{◌≡◌, IfOk};
ghost use Rattle.pt_lines.specs.Json.{behind_commas, definition_members};
ghost use Rattle.pt_lines.specs.state.Pieces.{alone_text, end_of as end_in, instant_text, label_text, member_text, names_text, span_text};

use crate::chromium::line::{put_instant, put_span};
use crate::chromium::phase::{Phase, end_of};
use crate::fields::put_label;
use crate::json::line::{put_alone, put_definition};
use crate::json::nest::put_member;
use crate::line::put_names;
use ep_defs::{Duplicate, EventDef, FieldDef};
use std::alloc::{AllocError, Global};
use std::marker::Model;

/// A definition. What each line of its events says of it is put once, and copied from here.
#[derive(Drop)]
pub struct NamedDef {
    def: EventDef,
    fields: Vec<NamedField>,
    // Its provider and its name, as they stand in a line.
    names: Vec<u8>,
    // Its members of an object.
    members: Vec<u8>,
    // They and those of no activity, up to the stack.
    alone: Vec<u8>,
    // A trace event up to its moment, for an instant.
    instant: Vec<u8>,
    // A trace event up to its phase, for an event of an activity, and what such an event is.
    span: Vec<u8>,
    phase: Phase,
}

impl Model for NamedDef {
    ghost use Rattle.std.specs.Prelude.{◌≡◌};
    ghost use Rattle.ep_defs.specs.declared.event.EventDef.{EventDef};
    ghost use Rattle.pt_lines.specs.Json.{behind_commas, definition_members};
    ghost use Rattle.pt_lines.specs.state.Pieces.{alone_text, end_of, instant_text, names_text, span_text};

    ghost Value = { EventDef };

    ghost view = { λ d. d.def };

    ghost invariant = { λ d. (d.fields.items ≡ d.def.fields) × (d.names.items ≡ names_text d.def)
        × (d.members.items ≡ behind_commas (definition_members d.def)) × (d.alone.items ≡ alone_text d.def)
        × (d.instant.items ≡ instant_text d.def) × (d.span.items ≡ span_text d.def) × (d.phase ≡ (end_of d.def.name).0) };
}

impl NamedDef {
    /// A copy of a definition.
    pub fn new(alloc: Global, def: &EventDef) -> Result<NamedDef, AllocError>
        ensures { IfOk result (λ named. named ≡ def.now) }
    {
        let mut names = Vec::new(alloc);
        put_names(&mut names, def)?;
        let mut members = Vec::new(alloc);
        put_definition(&mut members, def)?;
        let mut alone = Vec::new(alloc);
        put_alone(&mut alone, def)?;
        let mut instant = Vec::new(alloc);
        put_instant(&mut instant, def)?;
        let mut span = Vec::new(alloc);
        put_span(&mut span, def)?;
        let (phase, _) = end_of(def.name.as_slice());
        let fields = name_fields(alloc, def.fields.as_slice())?;
        let def = def.copy(alloc)?;
        Ok(NamedDef {
            def,
            fields,
            names,
            members,
            alone,
            instant,
            span,
            phase,
        })
    }

    /// The fields of its events.
    pub fn fields(&self) -> &[NamedField]
        ensures { result.now ≡ self.now.fields }
    {
        self.fields.as_slice()
    }

    /// What a line says of it.
    pub fn names(&self) -> &[u8]
        ensures { result.now ≡ names_text self.now }
    {
        self.names.as_slice()
    }

    /// What an object says of it, behind other members.
    pub fn members(&self) -> &[u8]
        ensures { result.now ≡ behind_commas (definition_members self.now) }
    {
        self.members.as_slice()
    }

    /// What an object says of it and of no activity, up to the stack.
    pub fn alone(&self) -> &[u8]
        ensures { result.now ≡ alone_text self.now }
    {
        self.alone.as_slice()
    }

    /// What a trace event says of it that is an instant, up to its moment.
    pub fn instant(&self) -> &[u8]
        ensures { result.now ≡ instant_text self.now }
    {
        self.instant.as_slice()
    }

    /// What a trace event says of it that has an activity, up to its phase.
    pub fn span(&self) -> &[u8]
        ensures { result.now ≡ span_text self.now }
    {
        self.span.as_slice()
    }

    /// What its events of an activity are.
    pub fn phase(&self) -> Phase
        ensures { result ≡ (end_in self.now.name).0 }
    {
        self.phase
    }
}

// These fields.
fn name_fields(alloc: Global, fields: &[FieldDef]) -> Result<Vec<NamedField>, AllocError>
    ensures { IfOk result (λ named. named.items ≡ fields.now) }
{
    let mut named = Vec::new(alloc);
    for field in fields {
        named.push(NamedField::new(alloc, field)?)?;
    }
    Ok(named)
}

/// A field. What stands before its values is put once, and copied from here.
#[derive(Drop)]
pub struct NamedField {
    def: FieldDef,
    // Its name, as it stands in a line.
    label: Vec<u8>,
    // Its name, as it stands in an object behind another member.
    member: Vec<u8>,
}

impl Model for NamedField {
    ghost use Rattle.std.specs.Prelude.{◌≡◌};
    ghost use Rattle.ep_defs.specs.declared.event.FieldDef.{FieldDef};
    ghost use Rattle.pt_lines.specs.state.Pieces.{label_text, member_text};

    ghost Value = { FieldDef };

    ghost view = { λ f. f.def };

    ghost invariant = { λ f. (f.label.items ≡ label_text f.def) × (f.member.items ≡ member_text f.def) };
}

impl NamedField {
    /// A copy of a field.
    pub fn new(alloc: Global, def: &FieldDef) -> Result<NamedField, AllocError>
        ensures { IfOk result (λ named. named ≡ def.now) }
    {
        let mut label = Vec::new(alloc);
        put_label(&mut label, def)?;
        let mut member = Vec::new(alloc);
        put_member(&mut member, def)?;
        let def = def.copy(alloc)?;
        Ok(NamedField { def, label, member })
    }

    /// How many objects it stands inside of.
    pub fn depth(&self) -> u32
        ensures { result ≡ self.now.depth }
    {
        self.def.depth
    }

    /// The type code of its values.
    pub fn code(&self) -> u8
        ensures { result ≡ self.now.code }
    {
        self.def.code
    }

    /// What stands in a line before its value.
    pub fn label(&self) -> &[u8]
        ensures { result.now ≡ label_text self.now }
    {
        self.label.as_slice()
    }

    /// What stands in an object before its value, behind another member.
    pub fn member(&self) -> &[u8]
        ensures { result.now ≡ member_text self.now }
    {
        self.member.as_slice()
    }
}
