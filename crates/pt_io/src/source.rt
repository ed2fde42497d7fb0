//! Where bytes come from.
ghost use Rattle.std.specs.Prelude.{◌≡◌, ℕ, ◌+◌, ◌^◌, ◌<◌, ◌≤◌, ◌++◌, Bool, List, [], length, take, IsTrue, IfOk, OnOk, OnErr};
ghost use Rattle.pt_io.specs.Faults.{HasRisen};
ghost use Rattle.pt_io.specs.Sides.{WriteSide, no_write_side};

/// The outside refused or broke off. Its cause is told by the object that failed, if at all.
#[derive(Clone, Copy, Debug, PartialEq, Eq)]
pub struct Failed;

/// A place where bytes come from.
pub trait Source {
    /// Whether it tells its bytes. Files, sockets and standard input do not.
    ghost tells_given: { Self → Bool };

    /// The bytes given so far, where it tells them.
    ghost given: { Self → List ℕ };

    /// The bytes that are left, where it tells them.
    ghost left: { Self → List ℕ };

    /// How many bytes it may still give.
    ghost may_give: { Self → ℕ };

    /// How often a read has failed.
    ghost read_faults: { Self → ℕ };

    /// What it has taken, where it is a sink too.
    ghost write_side: { Self → WriteSide } = { λ _. no_write_side };

    /// Puts bytes at the buffer's front and answers their number, 0 only at the end.
    fn read(&mut self, buf: &mut [u8]) -> Result<usize, Failed>
        requires { 0 < length buf.old }

        ensures within { IfOk result (λ n. n ≤ length buf.new) }
        ensures told { tells_given self.new ≡ tells_given self.old }
        ensures given { IsTrue (tells_given self.old)
            → IfOk result (λ n. given self.new ≡ given self.old ++ take n buf.new) }
        ensures left { IsTrue (tells_given self.old)
            → IfOk result (λ n. left self.old ≡ take n buf.new ++ left self.new) }
        ensures end { IsTrue (tells_given self.old) → IfOk result (λ n. n ≡ 0 → left self.old ≡ []) }

        // Every loop over a source ends.
        ensures few { may_give self.old < 2 ^ 63 }
        ensures falls { IfOk result (λ n. may_give self.new + n ≡ may_give self.old) }

        // A failure gives nothing.
        ensures failed { OnErr result (HasRisen (read_faults self.old) (read_faults self.new)) }
        ensures read { OnOk result (read_faults self.new ≡ read_faults self.old) }
        ensures later { read_faults self.old ≤ read_faults self.new }
        ensures given_err { IsTrue (tells_given self.old) → OnErr result (given self.new ≡ given self.old) }
        ensures left_err { IsTrue (tells_given self.old) → OnErr result (left self.new ≡ left self.old) }
        ensures falls_err { OnErr result (may_give self.new ≡ may_give self.old) }

        // A read takes nothing.
        ensures other_side { write_side self.new ≡ write_side self.old };
}
