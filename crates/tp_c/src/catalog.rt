//! The definitions of a stream's events, by their numbers.
ghost use Rattle.std.specs.Prelude.{◌≡◌, ◌<◌, ◌≤◌, [], length, position, slice_get, Some, None, Err, IfOk, OnErr, OnOk, IfSome, IsTrue};
ghost use Rattle.std.specs.Option.{option_copied};
ghost use Rattle.std.specs.Slice.{IsItemAt};
ghost use Rattle.ep_defs.specs.declared.limits.TheConstants.{EVENTS};
ghost use Rattle.ep_defs.specs.Definitions.{AreDistinct, definition_at};
ghost use Rattle.ep_defs.specs.Event.{is_valid_event, is_same_event};
ghost use Rattle.nt_write.specs.Layout.{id_in, with_member};
ghost use Rattle.tp_c.specs.declared.refusal.Refusal.{Refusal};
ghost use Rattle.tp_c.specs.declared.refusal.Refusal.TheVariants.{OutOfMemory};
ghost use Rattle.tp_c.specs.Defining.{definition_refused};

use crate::refusal::Refusal;
use ep_defs::EventDef;
use ep_defs::limits::EVENTS;
use std::alloc::Global;
use std::marker::Model;

/// Valid definitions, each of them once, numbered from 1.
#[derive(Drop)]
pub struct Catalog {
    definitions: Vec<EventDef>,
}

impl Model for Catalog {
    ghost use Rattle.std.specs.Prelude.{List};
    ghost use Rattle.ep_defs.specs.declared.event.EventDef.{EventDef};
    ghost use Rattle.tp_c.specs.Defining.{IsCatalog};

    ghost Value = { List EventDef };

    ghost view = { λ c. c.definitions.items };

    ghost invariant = { λ c. IsCatalog c.definitions.items };
}

impl Catalog {
    /// No definitions. It takes no memory.
    pub fn new(alloc: Global) -> Catalog
        ensures { result ≡ [] }
    {
        Catalog {
            definitions: Vec::new(alloc),
        }
    }

    /// The definition with a number.
    pub fn get(&self, number: u32) -> Option<&EventDef>
        ensures found { option_copied result ≡ definition_at self.now number }
        ensures valid { IfSome result (λ def. IsTrue (is_valid_event def.now)) }
        ensures few { length self.now ≤ EVENTS }
    {
        let definitions = &self.definitions;
        if number == 0 {
            return None;
        }
        placed(definitions, number as usize - 1)
    }

    /// Gives a definition its number: that of the same definition, where one is there, else the next.
    pub fn add(&mut self, def: EventDef) -> Result<u32, Refusal>
        ensures refused { (refusal : Refusal) → definition_refused self.old def ≡ Some refusal
            → result ≡ Err refusal }
        ensures memory { (refusal : Refusal) → definition_refused self.old def ≡ None
            → result ≡ Err refusal → refusal ≡ OutOfMemory }
        ensures number { IfOk result (λ number. number ≡ id_in is_same_event def self.new) }
        ensures added { OnOk result (self.new ≡ with_member is_same_event self.old def) }
        ensures distinct { AreDistinct (definition_at self.new) }
        ensures same { OnErr result (self.new ≡ self.old) }
    {
        let known = number_in(&self.definitions, &def);
        if !def.is_valid() {
            return Err(Refusal::BadDefinition);
        }
        if known > 0 {
            return Ok(known);
        }
        let count = self.definitions.len();
        if count >= EVENTS {
            return Err(Refusal::TooManyDefinitions);
        }
        match self.definitions.push(def) {
            Ok(()) => Ok(count as u32 + 1),
            Err(_) => Err(Refusal::OutOfMemory),
        }
    }
}

// The definition at a place, counted from 0.
fn placed(definitions: &[EventDef], place: usize) -> Option<&EventDef>
    ensures found { option_copied result ≡ slice_get definitions.now place }
    ensures item { IsItemAt definitions.now place result }
{
    definitions.get(place)
}

// The number of the same definition, or 0 where there is none.
fn number_in(definitions: &[EventDef], def: &EventDef) -> u32
    requires { length definitions.now ≤ EVENTS }
    ensures { result ≡ id_in is_same_event def.now definitions.now }
{
    match place_of(definitions, def) {
        Some(place) => place as u32 + 1,
        None => 0,
    }
}

// The first place where the same definition stands.
fn place_of(definitions: &[EventDef], def: &EventDef) -> Option<usize>
    ensures first { result ≡ position (λ known. is_same_event def.now known) definitions.now }
    ensures within { IfSome result (λ place. place < length definitions.now) }
{
    definitions.iter().position(|known| def.is_same(known))
}
