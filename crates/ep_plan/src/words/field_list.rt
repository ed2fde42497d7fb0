//! The fields of an event.
ghost use Rattle.std.specs.Prelude.{◌≡◌, IfOk};
ghost use Rattle.ep_plan.specs.Words.{code_in, field_in, fields_in};

use super::names::provider;
use super::numbers::number;
use super::split::{first_part, two_parts};
use ep_defs::{FIRST_CODE, FieldDef, FieldList, Items, LAST_CODE};
use std::alloc::{AllocError, Global};

/// The fields of an event: name:code, joined by commas, or `-` for none.
pub(crate) fn fields(alloc: Global, word: &[u8]) -> Result<Option<FieldList>, AllocError>
    ensures { IfOk result (λ fields. fields ≡ fields_in word.now) }
{
    let mut fields = Vec::new(alloc);
    if word == b"-".as_slice() {
        return Ok(Some(Items::new(fields)));
    }
    let mut rest = Some(word);
    while let Some(text) = rest {
        let (part, behind) = first_part(text, b',');
        let Some(field) = field(alloc, part)? else {
            return Ok(None);
        };
        fields.push(field)?;
        rest = behind;
    }
    Ok(Some(Items::new(fields)))
}

// A field, its name a provider's and its code decimal.
fn field(alloc: Global, part: &[u8]) -> Result<Option<FieldDef>, AllocError>
    ensures { IfOk result (λ field. field ≡ field_in part.now) }
{
    let Some((name, code)) = two_parts(part, b':') else {
        return Ok(None);
    };
    let Some(code) = code_of(code) else {
        return Ok(None);
    };
    let Some(name) = provider(alloc, name)? else {
        return Ok(None);
    };
    Ok(Some(FieldDef {
        depth: 0,
        code,
        name,
    }))
}

// The type code of a field that is no object.
fn code_of(digits: &[u8]) -> Option<u8>
    ensures { result ≡ code_in digits.now }
{
    let code = number(digits, LAST_CODE as u64).filter(|code| *code >= FIRST_CODE as u64)?;
    Some(code as u8)
}
