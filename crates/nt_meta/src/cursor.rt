//! Reading a payload from its front, up to the first thing that may not stand there.
ghost use Rattle.std.specs.Prelude.{◌≡◌, ◌+◌, ◌≤◌, ◌&&◌, nat_le, true, false, Ok, MatchResult, IsErr};
ghost use Rattle.std.specs.Int.{w32, w64, is_in_range};
ghost use Rattle.nt_meta.specs.Reading.{number_at, text_at, meta_at, def_at};
ghost use Rattle.ep_defs.specs.Event.{is_type_code};
ghost use Rattle.nt_meta.specs.declared.limits.TheConstants.{LAST_ID, READ_DEPTH};

use crate::limits::{LAST_ID, READ_DEPTH};
use ep_defs::{EventDef, FIRST_CODE, FieldDef, FieldList, LAST_CODE, OBJECT_CODE, Units, units_of};
use pt_num::{TakenText, take_u32, take_u64, take_utf16z};
use std::alloc::{AllocError, AllocFailed, Global};

/// Why reading ends early.
#[derive(Debug, Clone, Copy, PartialEq, Eq)]
pub enum Stop {
    BadMeta,
    OutOfMemory,
}

impl From<AllocError> for Stop {
    ghost use Rattle.nt_meta.specs.declared.cursor.Stop.{Stop};

    ghost from_gives = { λ _ stop. stop ≡ Stop.OutOfMemory };

    fn from(_error: AllocError) -> Self {
        Stop::OutOfMemory
    }
}

impl From<AllocFailed<FieldDef>> for Stop {
    ghost use Rattle.nt_meta.specs.declared.cursor.Stop.{Stop};

    ghost from_gives = { λ _ stop. stop ≡ Stop.OutOfMemory };

    fn from(_failed: AllocFailed<FieldDef>) -> Self {
        Stop::OutOfMemory
    }
}

/// The bytes that are not read yet.
#[derive(Drop)]
pub struct Cursor<'a> {
    rest: &'a [u8],
}

impl<'a> Cursor<'a> {
    ghost use Rattle.nt_meta.specs.state.Cursor.{Answers, AnswersField, AnswersFields};

    pub fn new(bytes: &'a [u8]) -> Cursor<'a>
        ensures { result.rest.now ≡ bytes.now }
    {
        Cursor { rest: bytes }
    }

    // A number of 32 bits.
    #[tactic(auto, unfolding(crate::specs::Reading::number_at))]
    fn number(&mut self) -> Result<u32, Stop>
        ensures { Answers (number_at w32 self.old.rest.now) result self.new.rest.now }
    {
        let Some(value) = take_u32(self.rest) else {
            return Err(Stop::BadMeta);
        };
        self.rest = &self.rest[4..];
        Ok(value)
    }

    // A number of 64 bits.
    #[tactic(auto, unfolding(crate::specs::Reading::number_at))]
    fn long_number(&mut self) -> Result<u64, Stop>
        ensures { Answers (number_at w64 self.old.rest.now) result self.new.rest.now }
    {
        let Some(value) = take_u64(self.rest) else {
            return Err(Stop::BadMeta);
        };
        self.rest = &self.rest[8..];
        Ok(value)
    }

    // The units of a text up to its zero unit.
    fn text(&mut self, alloc: Global) -> Result<Units, Stop>
        ensures { Answers (text_at self.old.rest.now) result self.new.rest.now }
    {
        match take_utf16z(self.rest) {
            TakenText::Units { count, used } => {
                let units = units_of(alloc, &self.rest[..2 * count])?;
                self.rest = &self.rest[used..];
                Ok(units)
            }
            TakenText::Short => Err(Stop::BadMeta),
            TakenText::NoZero => unreachable!(),
        }
    }

    // A field of this depth, and those inside it.
    #[cycle(fields)]
    fn field(&mut self, alloc: Global, depth: u32, fields: &mut Vec<FieldDef>) -> Result<(), Stop>
        requires { depth ≤ READ_DEPTH + 1 }
        ensures { AnswersField depth self.old.rest.now fields.old.items result self.new.rest.now fields.new.items }
    {
        let code = type_code(self.number()?, depth)?;
        let place = fields.len();
        fields.push(FieldDef {
            depth,
            code,
            name: Units::new(Vec::new(alloc)),
        })?;
        if code == OBJECT_CODE {
            let count = self.number()?;
            self.fields(alloc, depth + 1, count, fields)?;
        }
        let name = self.text(alloc)?;
        fields[place].name = name;
        Ok(())
    }

    // This many fields of this depth, each with those inside it.
    #[cycle(fields)]
    fn fields(
        &mut self,
        alloc: Global,
        depth: u32,
        count: u32,
        fields: &mut Vec<FieldDef>,
    ) -> Result<(), Stop>
        requires { depth ≤ READ_DEPTH + 1 }
        ensures { AnswersFields depth count self.old.rest.now fields.old.items result self.new.rest.now fields.new.items }
    {
        for _ in 0..count {
            self.field(alloc, depth, fields)?;
        }
        Ok(())
    }

    // A definition, after its id.
    fn definition(&mut self, alloc: Global) -> Result<EventDef, Stop>
        ensures { Answers (def_at self.old.rest.now) result self.new.rest.now }
    {
        let provider = self.text(alloc)?;
        let id = self.number()?;
        let name = self.text(alloc)?;
        let keywords = self.long_number()?;
        let version = self.number()?;
        let level = self.number()?;
        let count = self.number()?;
        let mut fields = Vec::new(alloc);
        self.fields(alloc, 0, count, &mut fields)?;
        Ok(EventDef {
            provider,
            id,
            version,
            level,
            keywords,
            name,
            fields: FieldList::new(fields),
        })
    }

    /// A definition and its id.
    pub fn meta(&mut self, alloc: Global) -> Result<(u32, EventDef), Stop>
        ensures { MatchResult result (λ meta. meta_at self.old.rest.now ≡ Ok (meta.0, meta.1)) (λ stop. stop
            ≡ Stop.BadMeta → IsErr (meta_at self.old.rest.now)) }
    {
        let id = self.number()?;
        if !is_id(id) {
            return Err(Stop::BadMeta);
        }
        let def = self.definition(alloc)?;
        Ok((id, def))
    }
}

// Whether it is a metadata id.
fn is_id(id: u32) -> bool
    ensures { result ≡ is_in_range 1 LAST_ID id }
{
    (1..=LAST_ID).contains(&id)
}

// The type code, if it is one of the format and a field may stand at this depth.
fn type_code(code: u32, depth: u32) -> Result<u8, Stop>
    ensures { MatchResult result (λ known. (known ≡ code) × (is_type_code code ≡ true)
        × (depth ≤ READ_DEPTH)) (λ stop. (is_type_code code && nat_le depth READ_DEPTH) ≡ false) }
{
    if depth > READ_DEPTH {
        return Err(Stop::BadMeta);
    }
    match u8::try_from(code) {
        Ok(known) if known == OBJECT_CODE || (FIRST_CODE..=LAST_CODE).contains(&known) => Ok(known),
        _ => Err(Stop::BadMeta),
    }
}
