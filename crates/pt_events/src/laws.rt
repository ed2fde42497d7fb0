//! Laws: what holds of the definitions alone.
ghost use Rattle.std.specs.Prelude.{◌≡◌, ℕ, List, count_by};
ghost use Rattle.ep_defs.specs.declared.item.Item.{Item};
ghost use Rattle.ep_defs.specs.Entry.{Entry};
ghost use Rattle.nt_blocks.specs.Ordered.{Tell, kinds_of};
ghost use Rattle.nt_blocks.specs.Seen.{item_gaps};
ghost use Rattle.pt_report.specs.Report.{is_event};
ghost use Rattle.pt_events.specs.Lines.{lines_of, is_event_line, lost_of};

/// Items that stand in order have a line for each of their events, which are those that a report counts; and the lines of
/// what a thread loses sum up to the numbers that are missing of it.
pub fn lines_have_what_a_report_counts()
    ensures events { (items : List Item) (entries : List Entry) → Tell items entries
        → count_by is_event_line (lines_of (kinds_of items)) ≡ count_by is_event (kinds_of items) }
    ensures lost { (thread : ℕ) (items : List Item)
        → lost_of thread (lines_of (kinds_of items)) ≡ item_gaps thread items }
{}
