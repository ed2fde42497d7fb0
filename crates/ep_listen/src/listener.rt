//! Who hands a session's events to a callback.
ghost use Rattle.std.specs.Prelude.{◌≡◌, ◌^◌, ◌<◌, ◌≤◌, ◌++◌, [], ◌∷◌, false, length, vec_len, vec_capacity, IfOk, IfErr};
ghost use Rattle.ep_slot.specs.Chain.{records_of};

use crate::hand_over::hand_chain;
use crate::heard::Callback;
use ep_defs::{Items, MarkList, Marks};
use ep_slot::Batch;
use std::alloc::{AllocError, Global};

/// Hands what was taken for a session to a callback.
#[derive(Drop)]
pub struct Listener<C: Callback> {
    callback: C,
    left: Left,
    failed: bool,
}

// What the session had of the rows on which it was closed, in the order of the closings. There is room for so many.
#[derive(Debug, Drop)]
struct Left {
    marks: Vec<Marks>,
    rows: u32,
    ghost few: { vec_len marks ≤ rows },
    ghost room: { rows ≤ vec_capacity marks },
}

/// What is left of a listener.
#[derive(Drop)]
pub struct ListenEnd<C> {
    pub callback: C,
    /// What the session had of each thread on which it was closed, in the order of the closings.
    pub marks: MarkList,
    /// The callback was out of memory, and heard nothing since.
    pub failed: bool,
}

impl<C: Callback> Listener<C> {
    ghost use Rattle.ep_listen.specs.Listening.{Hears, callback_of, has_failed, marks_in, room_of};

    /// A listener that has heard nothing. It takes the memory for the marks of so many rows. Out of memory the callback
    /// comes back.
    pub fn new(alloc: Global, callback: C, rows: u32) -> Result<Listener<C>, C>
        ensures callback { IfOk result (λ listener. callback_of listener ≡ callback) }
        ensures marks { IfOk result (λ listener. marks_in listener ≡ []) }
        ensures room { IfOk result (λ listener. room_of listener ≡ rows) }
        ensures sound { IfOk result (λ listener. has_failed listener ≡ false) }
        ensures back { IfErr result (λ back. back ≡ callback) }
    {
        match Vec::with_capacity(alloc, rows as usize) {
            Ok(marks) => Ok(Listener {
                callback,
                left: Left { marks, rows },
                failed: false,
            }),
            Err(AllocError) => Err(callback),
        }
    }

    /// Hands a batch's records over, in order, and answers how many there were. Where the callback is out of memory the
    /// listener has failed: this call and all later ones answer that, and hand over nothing more. The batch can be given
    /// back in any case.
    pub fn hear(&mut self, alloc: Global, batch: &Batch) -> Result<u32, AllocError>
        requires few { length (records_of batch.now.chain) < 2 ^ 32 }
        ensures heard { Hears C.has_heard (records_of batch.now.chain) self.old self.new result }
        ensures marks { marks_in self.new ≡ marks_in self.old }
        ensures room { room_of self.new ≡ room_of self.old }
    {
        if self.failed {
            return Err(AllocError);
        }
        let answer = hand_chain(alloc, &mut self.callback, &batch.chain);
        self.failed = answer.is_err();
        answer
    }

    /// Hands the last batch of a row over, on which the session was closed, as `hear` does, and keeps what the session had
    /// of the row's thread, also after want of memory.
    pub fn leave(&mut self, alloc: Global, batch: &Batch, marks: Marks) -> Result<u32, AllocError>
        requires few { length (records_of batch.now.chain) < 2 ^ 32 }
        requires room { length (marks_in self.old) < room_of self.old }
        ensures heard { Hears C.has_heard (records_of batch.now.chain) self.old self.new result }
        ensures marks { marks_in self.new ≡ marks_in self.old ++ marks ∷ [] }
        ensures room { room_of self.new ≡ room_of self.old }
    {
        self.left.marks.push_reserved(marks);
        self.hear(alloc, batch)
    }

    /// What is left once nothing more is handed over.
    pub fn end(self) -> ListenEnd<C>
        ensures callback { result.callback ≡ callback_of self }
        ensures marks { result.marks ≡ marks_in self }
        ensures failed { result.failed ≡ has_failed self }
    {
        ListenEnd {
            callback: self.callback,
            marks: Items::new(self.left.marks),
            failed: self.failed,
        }
    }
}
