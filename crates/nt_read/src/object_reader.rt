//! The reader that tells object by object.
ghost use Rattle.std.specs.Prelude.{◌≡◌, ℕ, ◌+◌, ◌-◌, ◌*◌, ◌<◌, ◌≤◌, ◌^◌, List, [], ◌++◌, length, take, true, Ok, Err, IfOk, IfErr, OnErr};
ghost use Rattle.nt_read.specs.Stages.{needs};

use crate::fault::{ReadFault, ReadKind};
use crate::judge::judge;
use crate::stage::Stage;
use crate::telling::Telling;
use std::alloc::Global;
use std::mem::swap;

/// Reads a stream that comes in any pieces, and tells object by object what stands for its items: so no item of an event is
/// made where less will do. A reader stands for the bytes that it was fed.
///
/// It keeps the bytes of at most one unit, of which the largest is a body of `nt_blocks::limits::READ_BYTES`, and what one
/// object tells. Memory is taken for bytes that have come, and not for a size that the stream claims. A unit that a piece
/// holds whole is read where it stands.
#[derive(Drop)]
pub struct ObjectReader<T> {
    alloc: Global,
    // Which unit is the next one.
    stage: Stage,
    // Its offset in the stream.
    at: u64,
    // What came of it.
    kept: Vec<u8>,
    // What the object tells whose end was not read yet.
    pending: T,
    fault: Option<ReadFault>,
    ghost few: { length kept.items ≤ needs stage at - 1 },
    ghost within: { at + length kept.items < 2 ^ 63 },
}

impl<T: Telling> ObjectReader<T> {
    ghost use Rattle.ep_defs.specs.declared.item.Item.{Item};
    ghost use Rattle.nt_blocks.specs.Refusals.{Refusal};
    ghost use Rattle.nt_blocks.specs.Verdict.{Bad, verdict};
    ghost use Rattle.nt_read.specs.declared.fault.ReadFault.TheVariants.{OutOfMemory};
    ghost use Rattle.nt_read.specs.declared.stage.Stage.TheVariants.{Close, Tag};
    ghost use Rattle.nt_read.specs.Answers.{IsKept, end_answer, fault_of};
    ghost use Rattle.nt_read.specs.Objects.{HasFailed, HasRead, Takes, used};
    ghost use Rattle.nt_read.specs.state.Objects.{Ends, JudgesTold, Steps, StopsObjects};
    ghost use Rattle.nt_read.specs.state.Units.{turns_left};

    /// A reader that was fed nothing. It takes no memory.
    pub fn new(alloc: Global) -> ObjectReader<T>
        ensures read { HasRead T.tells [] result }
        ensures used { used result ≡ 0 }
    {
        ObjectReader {
            alloc,
            stage: Stage::Head,
            at: 0,
            kept: Vec::new(alloc),
            pending: T::nothing(alloc),
            fault: None,
        }
    }

    /// Reads the piece of the stream up to the end of the first object that ends in it, or all of it where none does, and
    /// answers how many bytes that was. `told` then is what the object tells, or nothing.
    ///
    /// A unit is refused as soon as all its bytes are there. After a fault the reader takes nothing, and answers the same
    /// fault from then on.
    pub fn feed(&mut self, piece: &[u8], told: &mut T) -> Result<usize, ReadFault>
        requires { used self.old + length piece.now < 2 ^ 63 }
        ensures ok { IfOk result (λ n. (bytes : List ℕ) → HasRead T.tells bytes self.old
            → Takes T.tells bytes (take n piece.now) (Ok tt) self.new told.new) }
        ensures within { IfOk result (λ n. n ≤ length piece.now) }
        ensures some { IfOk result (λ n. 0 < length piece.now → 0 < n) }
        ensures used { IfOk result (λ n. used self.new ≤ used self.old + n) }
        ensures refused { IfErr result (λ fault. IsKept (Err fault) → (bytes : List ℕ) → HasRead T.tells bytes self.old
            → Takes T.tells bytes piece.now (Err fault) self.new told.new) }
        ensures nothing { OnErr result (T.tells told.new []) }
        ensures stays { (bytes : List ℕ) (why : Refusal) (items : List Item) → HasRead T.tells bytes self.old
            → verdict bytes ≡ Bad why items → result ≡ Err (fault_of why) }
        ensures used_all { used self.new ≤ used self.old + length piece.now }
        ensures memory { result ≡ Err OutOfMemory → HasFailed self.new }
        ensures fails { HasFailed self.old → result ≡ Err OutOfMemory }
    {
        told.clear();
        if let Some(fault) = self.fault {
            return Err(fault);
        }
        match self.read(piece, told) {
            Ok(count) => Ok(count),
            Err(fault) => {
                self.fault = Some(fault);
                Err(fault)
            }
        }
    }

    /// Whether the bytes are a whole stream: else the refusal that `feed` answered, or Truncated at their number.
    pub fn finish(&self) -> Result<(), ReadFault>
        ensures read { (bytes : List ℕ) → HasRead T.tells bytes self.now
            → result ≡ end_answer (length bytes) (verdict bytes) }
        ensures fails { HasFailed self.now → result ≡ Err OutOfMemory }
    {
        if let Some(fault) = self.fault {
            return Err(fault);
        }
        match self.stage {
            Stage::Ended => Ok(()),
            _ => Err(ReadFault::Bad {
                at: self.at + self.kept.len() as u64,
                kind: ReadKind::Truncated,
            }),
        }
    }

    // The caller has no memory for what was told: so the reader answers from here on, as if it had none itself.
    pub(crate) fn give_up(&mut self) -> ReadFault
        ensures fault { result ≡ OutOfMemory }
        ensures failed { HasFailed self.new }
        ensures used { used self.new ≡ used self.old }
    {
        self.fault = Some(ReadFault::OutOfMemory);
        ReadFault::OutOfMemory
    }

    // Takes units up to the end of an object, or all that are whole, and then keeps what is left.
    fn read(&mut self, piece: &[u8], told: &mut T) -> Result<usize, ReadFault>
        requires used { used self.old + length piece.now < 2 ^ 63 }
        requires none { T.tells told.old [] }
        ensures ok { IfOk result (λ n. (held : List Item) → T.tells self.old.pending held
            → Ends T.tells self.old held piece.now n self.new told.new) }
        ensures few { IfOk result (λ n. length self.new.kept.items < needs self.new.stage self.new.at) }
        ensures within { IfOk result (λ n. n ≤ length piece.now) }
        ensures some { IfOk result (λ n. 0 < length piece.now → 0 < n) }
        ensures all { IfOk result (λ n. used self.new ≡ used self.old + n) }
        ensures err { IfErr result (λ fault. (held : List Item) → T.tells self.old.pending held
            → StopsObjects self.old held piece.now fault) }
        ensures none { OnErr result (T.tells told.new []) }
        ensures used { used self.new ≤ used self.old + length piece.now }
        ensures fault { self.new.fault ≡ self.old.fault }
    {
        let mut here = 0;
        while piece.len() - here >= self.lacking() {
            let closes = self.stage.is_close();
            here += self.step(&piece[here..])?;
            if closes {
                swap(told, &mut self.pending);
                return Ok(here);
            }
        }
        self.kept.extend_from_slice(&piece[here..])?;
        Ok(piece.len())
    }

    // How many bytes of the unit are not there yet.
    fn lacking(&self) -> usize
        ensures { result ≡ needs self.now.stage self.now.at - length self.now.kept.items }
    {
        self.stage.needs(self.at) - self.kept.len()
    }

    // Takes the next unit, of which these bytes begin with what is lacking. Answers how many bytes that was.
    fn step(&mut self, bytes: &[u8]) -> Result<usize, ReadFault>
        requires whole { needs self.old.stage self.old.at ≤ length self.old.kept.items + length bytes.now }
        requires within { used self.old + length bytes.now < 2 ^ 63 }
        ensures ok { IfOk result (λ n. (held : List Item) → T.tells self.old.pending held
            → Steps T.tells self.old held bytes.now n self.new) }
        ensures kept { IfOk result (λ n. self.new.kept.items ≡ []) }
        ensures within { IfOk result (λ n. n ≤ length bytes.now) }
        ensures all { IfOk result (λ n. used self.new ≡ used self.old + n) }
        ensures falls { IfOk result (λ n. turns_left self.new.stage + 3 * (length bytes.now - n) < turns_left self.old.stage + 3 * length bytes.now) }
        ensures closes { IfOk result (λ n. self.old.stage ≡ Close → 0 < n) }
        ensures tag { IfOk result (λ n. self.old.stage ≡ Close → self.new.stage ≡ Tag true) }
        ensures err { IfErr result (λ fault. (held : List Item) → T.tells self.old.pending held
            → StopsObjects self.old held bytes.now fault) }
        ensures used { used self.new ≤ used self.old + length bytes.now }
        ensures fault { self.new.fault ≡ self.old.fault }
    {
        let lacking = self.lacking();
        let next = self.judge_next(&bytes[..lacking])?;
        self.at += self.stage.needs(self.at) as u64;
        self.stage = next;
        Ok(lacking)
    }

    // Judges the unit that is kept, with these bytes at its end.
    fn judge_next(&mut self, last: &[u8]) -> Result<Stage, ReadFault>
        requires whole { length self.old.kept.items + length last.now ≡ needs self.old.stage self.old.at }
        requires within { used self.old + length last.now < 2 ^ 63 }
        ensures judged { JudgesTold T.tells self.old.stage self.old.at self.old.pending (self.old.kept.items
            ++ last.now) result self.new.pending }
        ensures tag { IfOk result (λ next. self.old.stage ≡ Close → next ≡ Tag true) }
        ensures kept { IfOk result (λ next. self.new.kept.items ≡ []) }
        ensures few { length self.new.kept.items ≤ length self.old.kept.items }
        ensures stage { self.new.stage ≡ self.old.stage }
        ensures at { self.new.at ≡ self.old.at }
        ensures fault { self.new.fault ≡ self.old.fault }
    {
        if self.kept.is_empty() {
            return judge(self.alloc, self.stage, self.at, last, &mut self.pending);
        }
        self.kept.extend_from_slice(last)?;
        let next = judge(
            self.alloc,
            self.stage,
            self.at,
            &self.kept,
            &mut self.pending,
        );
        self.kept.clear();
        next
    }
}
