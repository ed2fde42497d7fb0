//! Reading the lines of a schedule from pieces of its text.
ghost use Rattle.std.specs.Prelude.{◌≡◌, ◌≤◌, ◌<◌, ◌+◌, ◌^◌, ◌++◌, ◌≢◌, ℕ, List, [], ◌∷◌, length, IfOk, IfSome, IfNone, IsTrue, OnOk};
ghost use Rattle.ep_plan.specs.declared.line.Line.{Line};
ghost use Rattle.pt_replay.specs.Reading.{HasTaken, IsLineJudged, lines_in};

use crate::errors::{Reason, Refusal};
use crate::schedule::{Fault, Schedule};
use ep_plan::LineKind;
use ep_plan::limits::LINE_BYTES;
use memchr::memchr;
use pt_command::Reads;
use pt_report::laws::a_stream_of_a_session_is_reported;
use std::alloc::{AllocError, Global};

/// A schedule that is read piece by piece.
#[derive(Drop)]
pub(crate) struct Reader {
    alloc: Global,
    schedule: Schedule,
    /// What came since the last line feed.
    part: Vec<u8>,
    /// The first line that was refused. Nothing is kept of what follows it.
    refusal: Option<Refusal>,
}

/// What a text comes to for a session.
#[derive(Clone, Copy)]
pub(crate) enum Outcome<'a> {
    /// It is a schedule that finishes the session, whose stream has these bytes.
    Stream(&'a [u8]),
    Refused(Refusal),
    /// It is a schedule that does not finish the session.
    Unfinished,
}

impl Reader {
    ghost use Rattle.ep_plan.specs.declared.line.Line.{Line};
    ghost use Rattle.pt_replay.specs.Outcomes.{IsOutcome};
    ghost use Rattle.pt_replay.specs.Reading.{HasRead, IsJudged, is_line, used};

    /// A reader that has read nothing.
    pub(crate) fn new(alloc: Global) -> Reader
        ensures fresh { HasRead [] result }
        ensures none { used result ≡ 0 }
    {
        Reader {
            alloc,
            schedule: Schedule::new(alloc),
            part: Vec::new(alloc),
            refusal: None,
        }
    }

    // Takes what stands before a line feed, and the line feed.
    fn take_line(&mut self, text: &[u8]) -> Result<(), AllocError>
        requires read { (bytes : List ℕ) × HasRead bytes self.old }
        requires few { used self.old + length text.now < 2 ^ 63 }
        requires no_feed { IsTrue (is_line text.now) }
        ensures read { (bytes : List ℕ) → HasRead bytes self.old
            → OnOk result (HasRead (bytes ++ text.now ++ 10 ∷ []) self.new) }
        ensures counted { OnOk result (used self.new ≤ used self.old + length text.now + 1) }
    {
        if self.refusal.is_none() && self.part.is_empty() && text.len() <= LINE_BYTES {
            return judge(self.alloc, &mut self.schedule, text, &mut self.refusal);
        }
        self.take_part(text)?;
        if self.refusal.is_some() {
            return Ok(());
        }
        self.end_line()
    }

    // Takes what has no line feed.
    fn take_part(&mut self, text: &[u8]) -> Result<(), AllocError>
        requires read { (bytes : List ℕ) × HasRead bytes self.old }
        requires few { used self.old + length text.now < 2 ^ 63 }
        requires no_feed { IsTrue (is_line text.now) }
        ensures read { (bytes : List ℕ) → HasRead bytes self.old
            → OnOk result (HasRead (bytes ++ text.now) self.new) }
        ensures counted { OnOk result (used self.new ≤ used self.old + length text.now) }
    {
        if self.refusal.is_some() {
            return Ok(());
        }
        if text.len() > LINE_BYTES - self.part.len() {
            self.refusal = Some(Refusal {
                line: self.schedule.lines() + 1,
                column: 1,
                reason: Reason::Line(LineKind::Long),
            });
            return Ok(());
        }
        self.part.extend_from_slice(text)
    }

    // Takes the line that is ended.
    fn end_line(&mut self) -> Result<(), AllocError>
        requires read { (bytes : List ℕ) × HasRead bytes self.old }
        requires good { self.old.refusal ≡ None }
        requires few { used self.old < 2 ^ 63 }
        ensures read { (bytes : List ℕ) → HasRead bytes self.old
            → OnOk result (HasRead (bytes ++ 10 ∷ []) self.new) }
        ensures last { (bytes : List ℕ) → HasRead bytes self.old → self.old.part.items ≢ []
            → OnOk result (IsJudged bytes self.new) }
        ensures counted { OnOk result (used self.new ≤ used self.old + 1) }
    {
        judge(
            self.alloc,
            &mut self.schedule,
            &self.part,
            &mut self.refusal,
        )?;
        self.part.clear();
        Ok(())
    }

    /// Reads the end of the text, where the last line needs no line feed.
    pub(crate) fn finish(&mut self) -> Result<(), AllocError>
        requires read { (bytes : List ℕ) × HasRead bytes self.old }
        requires few { used self.old < 2 ^ 63 }
        ensures { (bytes : List ℕ) → HasRead bytes self.old → OnOk result (IsJudged bytes self.new) }
    {
        if self.refusal.is_some() || self.part.is_empty() {
            return Ok(());
        }
        self.end_line()
    }

    /// What the bytes come to for a session.
    pub(crate) fn outcome(&self, session: u32) -> Outcome<'_>
        ensures { (bytes : List ℕ) → IsJudged bytes self.now → IsOutcome session bytes result }
    {
        a_stream_of_a_session_is_reported();
        if let Some(refusal) = self.refusal {
            return Outcome::Refused(refusal);
        }
        match self.schedule.stream(session) {
            Some(stream) => Outcome::Stream(stream),
            None => Outcome::Unfinished,
        }
    }
}

impl Reads for Reader {
    ghost use Rattle.pt_replay.specs.Reading.{HasRead, used};

    ghost has_read = { HasRead };

    ghost used = { used };

    /// Reads the next bytes.
    fn take(&mut self, piece: &[u8]) -> Result<(), AllocError> {
        let mut rest = piece;
        'lines: while let Some(end) = memchr(b'\n', rest) {
            self.take_line(&rest[..end])?;
            rest = &rest[end + 1..];
        }
        self.take_part(rest)
    }
}

// Takes the line that comes next, or says why it is refused.
fn judge(
    alloc: Global,
    schedule: &mut Schedule,
    text: &[u8],
    refusal: &mut Option<Refusal>,
) -> Result<(), AllocError>
    requires stands { (lines : List Line) × HasTaken lines schedule.old }
    requires few { lines_in schedule.old < 2 ^ 63 }
    requires good { refusal.old ≡ None }
    ensures judged { (lines : List Line) → HasTaken lines schedule.old
        → OnOk result (IsLineJudged lines text.now schedule.new refusal.new) }
    ensures counted { lines_in schedule.new ≤ lines_in schedule.old + 1 }
{
    match schedule.take_line(alloc, text) {
        Ok(()) => Ok(()),
        Err(Fault::Refused(why)) => {
            *refusal = Some(why);
            Ok(())
        }
        Err(Fault::OutOfMemory) => Err(AllocError),
    }
}
