//! The objects that are open between two fields.
ghost use Rattle.std.specs.Prelude.{◌≡◌, ◌<◌, ◌^◌, ℕ, true, List, [], ◌∷◌, ◌++◌, map, replicate, codes, OnOk, Option, Some};
ghost use Rattle.std.specs.Fmt.{decimal};
ghost use Rattle.nt_fields.specs.Taking.{value_in, StandsIn};
ghost use Rattle.pt_lines.specs.Texts.{quoted};
ghost use Rattle.pt_lines.specs.Json.{IsShownBy, commas};
ghost use Rattle.pt_lines.specs.state.Pieces.{member_text};
ghost use Rattle.pt_lines.specs.state.Nest.{Adds, Closes, Leaves, comma, still};

use crate::json::value::put_value;
use crate::named::NamedField;
use crate::text::put_quoted;
use crate::value::put_digits;
use ep_defs::FieldDef;
use nt_fields::Value;
use std::alloc::{AllocError, Global};

/// The objects that are open.
#[derive(Drop)]
pub struct Nest {
    // Their depths, that of the outermost first.
    depths: Vec<u32>,
    // Whether no member stands in the innermost yet.
    is_first: bool,
}

impl Nest {
    /// None beside the object of all fields, in which no member stands. It takes no memory.
    pub fn new(alloc: Global) -> Nest
        ensures { (members : List (ℕ × List ℕ)) → still result members ≡ commas (map (λ member. member.1) members) }
    {
        Nest {
            depths: Vec::new(alloc),
            is_first: true,
        }
    }

    /// Appends the next field, after the ends of the objects that it doesn't stand in. An object is open behind its name.
    pub fn put_field(
        &mut self,
        out: &mut Vec<u8>,
        alloc: Global,
        field: &NamedField,
        value: &Value<usize>,
        bytes: &[u8],
    ) -> Result<(), AllocError>
        requires { StandsIn bytes.now value.now }
        ensures { OnOk result ((shown : Option (List ℕ)) × IsShownBy (value_in bytes.now value.now) shown
            × Adds field.now shown self.old self.new out.old.items out.new.items) }
    {
        self.close_to(out, field.depth())?;
        self.put_name(out, field)?;
        match value {
            Value::Object => self.open(out, field.depth()),
            _ => {
                self.is_first = false;
                put_value(out, alloc, value, bytes)
            }
        }
    }

    /// So it is with a field that holds a number which has no quotes around it.
    pub fn put_number(
        &mut self,
        out: &mut Vec<u8>,
        field: &NamedField,
        number: u64,
    ) -> Result<(), AllocError>
        ensures { OnOk result (Adds field.now (Some (decimal number)) self.old self.new out.old.items out.new.items) }
    {
        self.close_to(out, field.depth())?;
        self.put_name(out, field)?;
        self.is_first = false;
        put_digits(out, number)
    }

    /// Appends the ends of all objects.
    pub fn close_all(&self, out: &mut Vec<u8>) -> Result<(), AllocError>
        ensures { OnOk result (out.new.items ≡ out.old.items ++ still self.now []) }
    {
        put_ends(out, self.depths.len())
    }

    // Appends the ends of the objects in which a field of this depth doesn't stand.
    fn close_to(&mut self, out: &mut Vec<u8>, depth: u32) -> Result<(), AllocError>
        ensures { OnOk result (Closes depth self.old self.new out.old.items out.new.items) }
    {
        while self.leave(depth) {
            out.push(b'}')?;
        }
        Ok(())
    }

    // Leaves the innermost object, if a field of this depth doesn't stand in it, and answers whether it did.
    fn leave(&mut self, depth: u32) -> bool
        ensures { Leaves depth self.old self.new result }
    {
        let Some(last) = self.depths.last() else {
            return false;
        };
        if *last < depth {
            return false;
        }
        self.depths.pop();
        self.is_first = false;
        true
    }

    // Appends the name of a member, behind a comma where another one stands before it.
    fn put_name(&self, out: &mut Vec<u8>, field: &NamedField) -> Result<(), AllocError>
        ensures { OnOk result (out.new.items ≡ out.old.items ++ comma self.now.is_first ++ quoted field.now.name ++ codes ":") }
    {
        let member = field.member();
        out.extend_from_slice(if self.is_first { &member[1..] } else { member })
    }

    // Appends the start of an object at this depth.
    fn open(&mut self, out: &mut Vec<u8>, depth: u32) -> Result<(), AllocError>
        ensures { OnOk result ((self.new.depths.items ≡ self.old.depths.items ++ depth ∷ []) × (self.new.is_first ≡ true)
            × (out.new.items ≡ out.old.items ++ codes "{")) }
    {
        out.push(b'{')?;
        self.depths.push(depth)?;
        self.is_first = true;
        Ok(())
    }
}

/// Appends the name of a field, as it stands behind other members.
pub fn put_member(out: &mut Vec<u8>, field: &FieldDef) -> Result<(), AllocError>
    ensures { OnOk result (out.new.items ≡ out.old.items ++ member_text field.now) }
{
    out.push(b',')?;
    put_quoted(out, field.name.as_slice())?;
    Ok(out.push(b':')?)
}

// Appends the ends of so many objects.
fn put_ends(out: &mut Vec<u8>, count: usize) -> Result<(), AllocError>
    requires { count < 2 ^ 63 }
    ensures { OnOk result (out.new.items ≡ out.old.items ++ replicate count 125) }
{
    if count == 0 {
        return Ok(());
    }
    out.resize(out.len() + count, b'}')
}
