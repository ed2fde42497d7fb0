//! A source in memory.
ghost use Rattle.std.specs.Prelude.{◌≡◌, ◌+◌, ◌^◌, ◌<◌, ◌≤◌, ◌↔◌, ◌++◌, [], length, take, drop, min, true, IsOk, IsErr, IfOk, OnOk, OnErr, Contains};
ghost use Rattle.pt_io.specs.Faults.{HasRisen};
ghost use Rattle.pt_io.specs.Memory.{SourceState, fresh_source, after_giving, after_failed_read};

use crate::calls::count_call;
use crate::source::{Failed, Source};
use std::marker::Model;

/// A source that gives bytes from memory, in pieces, and fails at the calls that it is told.
#[derive(Debug, Drop)]
pub struct MemSource {
    bytes: Vec<u8>,
    next: usize,
    most: usize,
    fails: Vec<u64>,
    calls: u64,
    faults: u64,
}

impl Model for MemSource {
    ghost Value = { SourceState };

    ghost view = { λ s. record {
      given = take s.next s.bytes.items;
      left = drop s.next s.bytes.items;
      most = s.most;
      fails = s.fails.items;
      calls = s.calls;
      faults = s.faults;
    } };

    ghost invariant = { λ s. (s.next ≤ length s.bytes.items) × (0 < s.most) };
}

impl MemSource {
    /// A source of `bytes` that gives at most `most` of them in a read. `fails` are the numbers, from 1, of the reads
    /// that fail.
    pub fn new(bytes: Vec<u8>, most: usize, fails: Vec<u64>) -> MemSource
        requires { 0 < most }
        ensures { result ≡ fresh_source bytes.items most fails.items }
    {
        MemSource {
            bytes,
            next: 0,
            most,
            fails,
            calls: 0,
            faults: 0,
        }
    }
}

impl Source for MemSource {
    ghost tells_given = { λ _. true };

    ghost given = { λ s. s.given };

    ghost left = { λ s. s.left };

    ghost may_give = { λ s. length s.left };

    ghost read_faults = { λ s. s.faults };

    /// Gives `most` bytes, or as many as the buffer holds or are left. It fails where its number is one of `fails`.
    fn read(&mut self, buf: &mut [u8]) -> Result<usize, Failed>
        requires { 0 < length buf.old }

        ensures fails { IsErr result ↔ Contains self.old.fails (self.old.calls + 1) }
        ensures never { self.old.fails ≡ [] → IsOk result }
        ensures count { IfOk result (λ n. n ≡ min (min self.old.most (length buf.old)) (length self.old.left)) }
        ensures front { IfOk result (λ n. take n buf.new ≡ take n self.old.left) }
        ensures rest { IfOk result (λ n. drop n buf.new ≡ drop n buf.old) }
        ensures after { IfOk result (λ n. self.new ≡ after_giving n self.old) }
        ensures rest_err { OnErr result (buf.new ≡ buf.old) }
        ensures after_err { OnErr result (self.new ≡ after_failed_read self.old) }

        // What the trait says.
        ensures within { IfOk result (λ n. n ≤ length buf.new) }
        ensures given { IfOk result (λ n. self.new.given ≡ self.old.given ++ take n buf.new) }
        ensures left { IfOk result (λ n. self.old.left ≡ take n buf.new ++ self.new.left) }
        ensures end { IfOk result (λ n. n ≡ 0 → self.old.left ≡ []) }
        ensures few { length self.old.left < 2 ^ 63 }
        ensures falls { IfOk result (λ n. length self.new.left + n ≡ length self.old.left) }
        ensures failed { OnErr result (HasRisen self.old.faults self.new.faults) }
        ensures read { OnOk result (self.new.faults ≡ self.old.faults) }
        ensures later { self.old.faults ≤ self.new.faults }
        ensures given_err { OnErr result (self.new.given ≡ self.old.given) }
        ensures left_err { OnErr result (self.new.left ≡ self.old.left) }
        ensures falls_err { OnErr result (length self.new.left ≡ length self.old.left) }
    {
        if count_call(&mut self.calls, &self.fails) {
            self.faults = self.faults.saturating_add(1);
            return Err(Failed);
        }
        let count = copy_front(&self.bytes[self.next..], self.most, buf);
        self.next += count;
        Ok(count)
    }
}

/// Copies at most `most` bytes to the buffer's front, as many as are there and as it holds, and answers their number.
fn copy_front(bytes: &[u8], most: usize, buf: &mut [u8]) -> usize
    ensures count { result ≡ min (min most (length buf.old)) (length bytes.now) }
    ensures front { take result buf.new ≡ take result bytes.now }
    ensures rest { drop result buf.new ≡ drop result buf.old }
{
    let count = most.min(buf.len()).min(bytes.len());
    buf[..count].copy_from_slice(&bytes[..count]);
    count
}
