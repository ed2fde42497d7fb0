//! Laws: what was heard of a program's threads.
ghost use Rattle.std.specs.Prelude.{ℕ, Bool, false, List, [], length};
ghost use Rattle.ep_defs.specs.declared.session.Write.{Write};
ghost use Rattle.ep_chunk.specs.Record.{Record};
ghost use Rattle.ep_listen.specs.Heard.{HeardEvent};
ghost use Rattle.ep_listen.specs.Shares.{Account, AddToHeard, AreHeard, AreNext, IsHeardOf, IsShareAtEnd, heard_by, no_account, with_taken};

/// Before anything was taken nothing is heard.
pub fn nothing_is_heard_at_first()
    ensures { (admitted : ℕ → List Write) → AreHeard admitted (λ thread. no_account) false [] }
{}

/// What a batch of a thread's next records adds to what was heard, also where the listener fails at it or has failed.
pub fn a_batch_is_heard()
    ensures { (admitted : ℕ → List Write) (before : ℕ → Account) (thread last : ℕ) (records : List Record)
        → AreNext (admitted thread) thread (before thread).last last records
        → AddToHeard admitted before (with_taken before thread (length records) last) records }
{}

/// What was heard of a thread of which all numbers were used is what the session admits of its writes, without those that
/// are missing: as many as the numbers that were not taken, unless the listener has failed.
pub fn all_is_heard_but_what_is_missing()
    ensures { (admitted : List Write) (account : Account) (refused : ℕ) (failed : Bool) (thread : ℕ) (heard : List HeardEvent)
        → IsHeardOf admitted account failed thread heard
        → IsShareAtEnd admitted account refused failed (heard_by thread heard) }
{}
