//! Laws: what holds of the definitions alone.
ghost use Rattle.std.specs.Prelude.{◌≡◌, ℕ, false, List, Some, None};
ghost use Rattle.std.specs.List.{AllByRecursion};
ghost use Rattle.ep_defs.specs.declared.event.EventDef.{EventDef};
ghost use Rattle.ep_defs.specs.declared.item.Item.{Item};
ghost use Rattle.ep_defs.specs.Entry.{Entry};
ghost use Rattle.ep_model.specs.Faithful.{Share, AreFaithful, is_of};
ghost use Rattle.ep_model.specs.History.{Past};
ghost use Rattle.nt_blocks.specs.Ordered.{Tell, kinds_of};
ghost use Rattle.nt_blocks.specs.Verdict.{Good, verdict};
ghost use Rattle.nt_check.specs.Numbers.{numbers_of};
ghost use Rattle.pt_report.specs.Report.{thread_lines};
ghost use Rattle.pt_report.specs.Found.{IsWhole};
ghost use Rattle.pt_report.specs.Shares.{share_numbers, session_lines, OfSession, HaveNumbers, HaveNone, ReportsSession};

use ep_model::laws::{finished_sessions_are_faithful, lawful_lists_are_limited};
use ep_told::{a_rundown_tells_of_thread_0, the_program_has_no_thread_0};

/// Items that tell the shares of some threads faithfully have the numbers of each share, and of no other thread.
pub fn items_have_the_numbers_of_their_shares()
    ensures numbers { (shares : List Share) (items : List Item) (entries : List Entry)
        → Tell items entries → AreFaithful shares entries
        → AllByRecursion (λ share. numbers_of share.thread (kinds_of items) ≡ Some (share_numbers share)) shares }
    ensures none { (shares : List Share) (items : List Item) (entries : List Entry) (thread : ℕ)
        → Tell items entries → AreFaithful shares entries
        → is_of shares thread ≡ false → numbers_of thread (kinds_of items) ≡ None }
{}

/// Items that tell what a finished session's stream tells have of each thread on which it was opened how many events were
/// written, the last number, and how many were refused; with a rundown they have of thread 0 an event for each definition
/// that was used; and of no other thread anything.
pub fn items_have_the_numbers_of_the_session()
    ensures numbers { (definitions : List EventDef) (session thread : ℕ) (past : Past) (items : List Item)
        → OfSession definitions session past items (HaveNumbers definitions session thread past items) }
    ensures none { (definitions : List EventDef) (session thread : ℕ) (past : Past) (items : List Item)
        → OfSession definitions session past items (HaveNone session thread past items) }
{
    finished_sessions_are_faithful();
    lawful_lists_are_limited();
    the_program_has_no_thread_0();
    a_rundown_tells_of_thread_0();
    items_have_the_numbers_of_their_shares();
}

/// The report of such items has a line with these numbers for each of those threads, ascending, and no other line of a
/// thread.
pub fn a_report_has_a_line_for_each_thread()
    ensures { (definitions : List EventDef) (session : ℕ) (past : Past) (items : List Item)
        → OfSession definitions session past items
        (thread_lines (kinds_of items) ≡ session_lines definitions session past) }
{
    the_program_has_no_thread_0();
    items_have_the_numbers_of_the_session();
}

/// The stream of a finished session, in which such items are found, has a report (`whole`), and each of its reports has
/// these lines of threads.
pub fn a_stream_of_a_session_is_reported()
    ensures whole { (items : List Item) (entries : List Entry) (bytes : List ℕ)
        → verdict bytes ≡ Good items → Tell items entries → IsWhole bytes }
    ensures threads { (definitions : List EventDef) (session : ℕ) (past : Past) (items : List Item)
        (bytes text : List ℕ)
        → OfSession definitions session past items
        (ReportsSession definitions session past items bytes text) }
{
    a_report_has_a_line_for_each_thread();
}
