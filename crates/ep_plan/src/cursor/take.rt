//! Taking the words of a line, one after another, each as a part of the line.
ghost use Rattle.std.specs.Prelude.{◌≡◌, ◌≢◌, ◌+◌, ◌^◌, ◌<◌, ◌≤◌, ℕ, List, [], length, take, codes, false, Option, None, Some, IfOk, IfSome, IsTrue, OnOk};
ghost use Rattle.std.specs.Bool.{OnTrue, OnFalse};
ghost use Rattle.ep_defs.specs.declared.limits.TheConstants.{EVENTS};
ghost use Rattle.ep_plan.specs.declared.limits.TheConstants.{LINE_BYTES, ID_DIGITS};
ghost use Rattle.ep_plan.specs.declared.line.LineKind.TheVariants.{Word};
ghost use Rattle.ep_plan.specs.declared.line.LineFault.TheVariants.{Bad as BadLine};
ghost use Rattle.ep_plan.specs.Lines.{Part, Index, Number, Flag, Stamp, Provider, Name, Keywords, Fields as FieldsPart, Rule as RulePart, Id, Frames as FramesPart, Payload, form_of, number_of, flag_of, stamp_of};
ghost use Rattle.ep_plan.specs.Words.{words_of, number_in, hex_in, id_in, frames_in, payload_in, provider_in, event_name_in, rule_in, fields_in};
ghost use Rattle.ep_plan.specs.Cursor.{left, column_of, bad_left, has_word, TookWord, Took, TakesPart, IsBad, IsBadAt, IfBad, IsNext, Reads, SpellsAll};

use super::Cursor;
use crate::limits::ID_DIGITS;
use crate::line::{LineFault, LineKind};
use crate::verb::Verb;
use crate::words;
use ep_defs::limits::EVENTS;
use ep_defs::{Bytes, FieldList, Frames, Items, Rule, Units};
use std::alloc::{AllocError, Global};

// What a number is at most.
const MOST: u64 = u32::MAX as u64;

// So many decimal digits spell a number of 64 bits, whichever they are.
const SAFE_DIGITS: usize = 19;

impl<'a> Cursor<'a> {
    /// The words of a line, given with its number.
    pub(crate) fn new(line: u64, text: &'a [u8]) -> Self
        requires { length text.now ≤ LINE_BYTES }
        ensures line { result.line ≡ line }
        ensures past { result.past ≡ length text.now + 1 }
        ensures column { column_of result ≡ 1 }
        ensures words { left result ≡ words_of text.now }
    {
        Cursor {
            line,
            past: text.len() + 1,
            rest: Some(text),
        }
    }

    // The column of the next word, or one past the line's end.
    fn column(&self) -> u64
        ensures { result ≡ column_of self.now }
    {
        match self.rest {
            Some(text) => (self.past - text.len()) as u64,
            None => self.past as u64,
        }
    }

    /// The fault of a word that begins at a column.
    pub(crate) fn bad(&self, column: u64, kind: LineKind) -> LineFault
        ensures { result ≡ BadLine self.now.line column kind }
    {
        LineFault::Bad {
            line: self.line,
            column,
            kind,
        }
    }

    /// The next word, which may not be empty.
    pub(crate) fn word(&mut self) -> Result<&'a [u8], LineFault>
        ensures took { IfOk result (λ word. TookWord self.old self.new word.now) }
        ensures bad { IfBad result (λ line column kind. (part : Part)
            → IsBad part self.old line column kind) }
        ensures no_word { IfBad result (λ line column kind. (column ≡ column_of self.old)
            × (kind ≡ Word) × (has_word (left self.old) ≡ false)) }
    {
        let column = self.column();
        let Some(text) = self.rest else {
            return Err(self.bad(column, LineKind::Word));
        };
        let (word, rest) = words::first_part(text, b' ');
        if word.is_empty() {
            return Err(self.bad(column, LineKind::Word));
        }
        self.rest = rest;
        Ok(word)
    }

    /// Nothing may be left.
    pub(crate) fn end(&self) -> Result<(), LineFault>
        ensures end { OnOk result (left self.now ≡ []) }
        ensures good { OnOk result ((more_rules : ℕ) → bad_left self.now [] more_rules ≡ None) }
        ensures bad { IfBad result (IsBadAt self.now (bad_left self.now [] 0)) }
    {
        if self.is_over() {
            return Ok(());
        }
        Err(self.bad(self.column(), LineKind::Word))
    }

    /// Whether no word is left.
    pub(crate) fn is_over(&self) -> bool
        ensures over { OnTrue result (left self.now ≡ []) }
        ensures more { OnFalse result (left self.now ≢ []) }
    {
        self.rest.is_none()
    }

    // TakesPart the next word as what `read` makes of it. A word of which it makes nothing is a fault of this kind.
    fn part<T, F: FnOnce(&'a [u8]) -> Result<Option<T>, AllocError>>(
        &mut self,
        kind: LineKind,
        read: F,
    ) -> Result<T, LineFault>
    where
        T: Drop,
        requires { F.IsAlwaysCallable read }
        ensures took { (part : Part) (spell : List ℕ → Option T)
            → Reads part spell kind (F.post read)
            → IfOk result (TakesPart part spell self.old self.new) }
        ensures bad { (part : Part) (spell : List ℕ → Option T)
            → Reads part spell kind (F.post read) → IfBad result (IsBad part self.old) }
    {
        let column = self.column();
        let word = self.word()?;
        match read(word)? {
            Some(value) => Ok(value),
            None => Err(self.bad(column, kind)),
        }
    }

    /// A number below 2 ^ 32.
    pub(crate) fn number(&mut self) -> Result<u32, LineFault>
        ensures took { IfOk result (TakesPart Number number_of self.old self.new) }
        ensures bad { IfBad result (IsBad Number self.old) }
    {
        match self.short_number() {
            Some(number) => Ok(number),
            None => self.whole_number(),
        }
    }

    /// A number below 2 ^ 32, if it has few digits. Else nothing is taken.
    #[inline(always)]
    pub(crate) fn short_number(&mut self) -> Option<u32>
        ensures took { IfSome result (TakesPart Number number_of self.old self.new) }
        ensures none { result ≡ None → self.new ≡ self.old }
    {
        let (number, count) = self.number_ahead(MOST)?;
        self.pass(count);
        Some(number as u32)
    }

    // A number whose word is taken as a whole. It stands out of line, since few numbers are read so.
    #[inline(never)]
    fn whole_number(&mut self) -> Result<u32, LineFault>
        ensures took { IfOk result (TakesPart Number number_of self.old self.new) }
        ensures bad { IfBad result (IsBad Number self.old) }
    {
        let number = self.part(LineKind::Number, |word| Ok(words::number(word, MOST)))?;
        Ok(number as u32)
    }

    // The number that the next word spells, and the word's bytes, if it has few digits and is at most `most`.
    #[inline(always)]
    fn number_ahead(&self, most: u64) -> Option<(u64, usize)>
        ensures word { IfSome result (λ read. (next : IsNext self.now read.1)
            × (number_in most (take read.1 next.text.now) ≡ Some read.0)) }
        ensures most { IfSome result (λ read. read.0 ≤ most) }
    {
        let Some(text) = self.rest else {
            return None;
        };
        let (number, count) = words::leading(text, 10, SAFE_DIGITS);
        if count == 0 || number > most {
            return None;
        }
        if words::ends(text, count) {
            Some((number, count))
        } else {
            None
        }
    }

    // Passes over the next word, which has so many bytes.
    #[inline(always)]
    fn pass(&mut self, count: usize)
        requires { IsNext self.old count }
        ensures { (next : IsNext self.old count) → TookWord self.old self.new (take count next.text.now) }
    {
        let Some(text) = self.rest else {
            unreachable!();
        };
        if count == text.len() {
            self.rest = None;
            return;
        }
        self.rest = Some(&text[count + 1..]);
    }

    /// The verb that the next word is the name of, if it is one of those with which nearly all lines begin.
    #[inline(always)]
    pub(crate) fn verb(&mut self) -> Option<Verb>
        ensures { IfSome result (λ verb. TookWord self.old self.new (form_of verb).name) }
    {
        if let Some((verb, count)) = self.verb_ahead() {
            self.pass(count);
            return Some(verb);
        }
        None
    }

    // Such a verb, and the bytes of its name.
    #[inline(always)]
    fn verb_ahead(&self) -> Option<(Verb, usize)>
        ensures { IfSome result (λ found. (next : IsNext self.now found.1)
            × (take found.1 next.text.now ≡ (form_of found.0).name)) }
    {
        match self.rest {
            Some(text) => words::verb_ahead(text),
            None => None,
        }
    }

    // Whether the next word is `-`.
    #[inline(always)]
    fn dash_ahead(&self) -> bool
        ensures { IsTrue result → (next : IsNext self.now 1) × (take 1 next.text.now ≡ codes "-") }
    {
        match self.rest {
            Some(text) => words::dash_ahead(text),
            None => false,
        }
    }

    /// A flag, 0 or 1.
    pub(crate) fn flag(&mut self) -> Result<bool, LineFault>
        ensures took { IfOk result (TakesPart Flag flag_of self.old self.new) }
        ensures bad { IfBad result (IsBad Flag self.old) }
    {
        self.part(LineKind::Number, |word| {
            Ok(words::number(word, 1).map(|number| number == 1))
        })
    }

    /// A stamp, a number below 2 ^ 64.
    pub(crate) fn stamp(&mut self) -> Result<u64, LineFault>
        ensures took { IfOk result (TakesPart Stamp stamp_of self.old self.new) }
        ensures bad { IfBad result (IsBad Stamp self.old) }
    {
        if let Some((stamp, count)) = self.number_ahead(u64::MAX) {
            self.pass(count);
            return Ok(stamp);
        }
        self.whole_stamp()
    }

    #[inline(never)]
    fn whole_stamp(&mut self) -> Result<u64, LineFault>
        ensures took { IfOk result (TakesPart Stamp stamp_of self.old self.new) }
        ensures bad { IfBad result (IsBad Stamp self.old) }
    {
        self.part(LineKind::Number, |word| Ok(words::number(word, u64::MAX)))
    }

    /// Keywords, in hexadecimal digits.
    pub(crate) fn keywords(&mut self) -> Result<u64, LineFault>
        ensures took { IfOk result (TakesPart Keywords hex_in self.old self.new) }
        ensures bad { IfBad result (IsBad Keywords self.old) }
    {
        self.part(LineKind::Hex, |word| Ok(words::hexadecimal(word)))
    }

    /// An id.
    #[inline(always)]
    pub(crate) fn id(&mut self) -> Result<[u8; 16], LineFault>
        ensures took { IfOk result (TakesPart Id id_in self.old self.new) }
        ensures bad { IfBad result (IsBad Id self.old) }
    {
        if self.dash_ahead() {
            self.pass(1);
            return Ok([0; 16]);
        }
        self.spelled_id()
    }

    // An id that is spelled by digits. It stands out of line, since most ids are `-`.
    #[inline(never)]
    fn spelled_id(&mut self) -> Result<[u8; 16], LineFault>
        ensures took { IfOk result (TakesPart Id id_in self.old self.new) }
        ensures bad { IfBad result (IsBad Id self.old) }
    {
        if let Some(id) = self.id_ahead() {
            self.pass(ID_DIGITS);
            return Ok(id);
        }
        self.whole_id()
    }

    // The id that the next word spells, if it has digits alone.
    #[inline(always)]
    fn id_ahead(&self) -> Option<[u8; 16]>
        ensures { IfSome result (λ id. (next : IsNext self.now ID_DIGITS)
            × (id_in (take ID_DIGITS next.text.now) ≡ Some id)) }
    {
        match self.rest {
            Some(text) => words::id_ahead(text),
            None => None,
        }
    }

    // The same, its word taken as a whole. It stands out of line, since hardly a word is read so.
    #[inline(never)]
    fn whole_id(&mut self) -> Result<[u8; 16], LineFault>
        ensures took { IfOk result (TakesPart Id id_in self.old self.new) }
        ensures bad { IfBad result (IsBad Id self.old) }
    {
        self.part(LineKind::Hex, |word| Ok(words::id(word)))
    }

    /// The name of a provider.
    pub(crate) fn provider(&mut self, alloc: Global) -> Result<Units, LineFault>
        ensures took { IfOk result (TakesPart Provider provider_in self.old self.new) }
        ensures bad { IfBad result (IsBad Provider self.old) }
    {
        self.part(LineKind::Word, |word| words::provider(alloc, word))
    }

    /// The name of an event, `-` for the empty one.
    pub(crate) fn name(&mut self, alloc: Global) -> Result<Units, LineFault>
        ensures took { IfOk result (TakesPart Name event_name_in self.old self.new) }
        ensures bad { IfBad result (IsBad Name self.old) }
    {
        self.part(LineKind::Word, |word| words::event_name(alloc, word))
    }

    /// The fields of an event.
    pub(crate) fn fields(&mut self, alloc: Global) -> Result<FieldList, LineFault>
        ensures took { IfOk result (TakesPart FieldsPart fields_in self.old self.new) }
        ensures bad { IfBad result (IsBad FieldsPart self.old) }
    {
        self.part(LineKind::Fields, |word| words::fields(alloc, word))
    }

    /// A rule.
    pub(crate) fn rule(&mut self, alloc: Global) -> Result<Rule, LineFault>
        ensures took { IfOk result (TakesPart RulePart rule_in self.old self.new) }
        ensures bad { IfBad result (IsBad RulePart self.old) }
    {
        self.part(LineKind::Fields, |word| words::rule(alloc, word))
    }

    /// Return addresses.
    pub(crate) fn frames(&mut self, alloc: Global) -> Result<Frames, LineFault>
        ensures took { IfOk result (TakesPart FramesPart frames_in self.old self.new) }
        ensures bad { IfBad result (IsBad FramesPart self.old) }
    {
        let mut frames = Vec::new(alloc);
        if self.dash_ahead() {
            self.pass(1);
            return Ok(Items::new(frames));
        }
        if let Some(count) = self.frames_ahead(&mut frames)? {
            self.pass(count);
            return Ok(Items::new(frames));
        }
        self.whole_frames(alloc)
    }

    #[inline(never)]
    fn whole_frames(&mut self, alloc: Global) -> Result<Frames, LineFault>
        ensures took { IfOk result (TakesPart FramesPart frames_in self.old self.new) }
        ensures bad { IfBad result (IsBad FramesPart self.old) }
    {
        self.part(LineKind::Hex, |word| words::frames(alloc, word))
    }

    // Appends the return addresses that the next word spells, and answers its bytes, if another word is behind it.
    fn frames_ahead(&self, frames: &mut Vec<u64>) -> Result<Option<usize>, AllocError>
        requires { frames.old.items ≡ [] }
        ensures { IfOk result (λ found. IfSome found (λ count. (next : IsNext self.now count)
            × (frames_in (take count next.text.now) ≡ Some frames.new.items))) }
    {
        match self.rest {
            Some(text) => words::frames_ahead(text, frames),
            None => Ok(None),
        }
    }

    /// A payload.
    pub(crate) fn payload(&mut self, alloc: Global) -> Result<Bytes, LineFault>
        ensures took { IfOk result (TakesPart Payload payload_in self.old self.new) }
        ensures bad { IfBad result (IsBad Payload self.old) }
    {
        if self.dash_ahead() {
            self.pass(1);
            let bytes = Vec::new(alloc);
            return Ok(Items::new(bytes));
        }
        if let Some(bytes) = self.bytes_ahead(alloc)? {
            self.rest = None;
            return Ok(bytes);
        }
        self.whole_payload(alloc)
    }

    #[inline(never)]
    fn whole_payload(&mut self, alloc: Global) -> Result<Bytes, LineFault>
        ensures took { IfOk result (TakesPart Payload payload_in self.old self.new) }
        ensures bad { IfBad result (IsBad Payload self.old) }
    {
        self.part(LineKind::Hex, |word| words::payload(alloc, word))
    }

    // The bytes of a payload that is all that is left of the line, if it has digits alone.
    fn bytes_ahead(&self, alloc: Global) -> Result<Option<Bytes>, AllocError>
        ensures { IfOk result (λ found. IfSome found (SpellsAll self.now)) }
    {
        match self.rest {
            Some(text) => words::bytes_ahead(alloc, text),
            None => Ok(None),
        }
    }

    /// The number of an event, which has to be the one after `defined` others, and at most `EVENTS`.
    pub(crate) fn index(&mut self, defined: usize) -> Result<u32, LineFault>
        requires { defined < 2 ^ 63 }
        ensures took { IfOk result (TakesPart (Index (defined + 1)) number_of self.old self.new) }
        ensures next { IfOk result (λ index. (index ≡ defined + 1) × (index ≤ EVENTS)) }
        ensures bad { IfBad result (IsBad (Index (defined + 1)) self.old) }
    {
        let column = self.column();
        let word = self.word()?;
        let Some(index) = words::number(word, MOST) else {
            return Err(self.bad(column, LineKind::Number));
        };
        if index != defined as u64 + 1 || index > EVENTS as u64 {
            return Err(self.bad(column, LineKind::EventOrder));
        }
        Ok(index as u32)
    }
}
