//! Laws: what holds of the definitions alone.
ghost use Rattle.std.specs.Prelude.{◌≡◌, ℕ, ◌<◌, Bool, List, ◌++◌, length};
ghost use Rattle.ep_defs.specs.declared.session.TraceInfo.{TraceInfo};
ghost use Rattle.ep_defs.specs.declared.item.Item.{Item};
ghost use Rattle.ep_defs.specs.Entry.{Entry};
ghost use Rattle.nt_blocks.specs.Ordered.{AreOrdered};
ghost use Rattle.nt_blocks.specs.Verdict.{Good, verdict};
ghost use Rattle.nt_write.specs.Trace.{IsTrace};
ghost use Rattle.nt_write.specs.Canonical.{IsCanonical};
ghost use Rattle.ep_model.specs.Faithful.{Share, AreFaithful};
ghost use Rattle.ep_told.specs.Told.{AreOfProgram};
ghost use Rattle.nt_laws.specs.Faithful.{Faithful, TellsShares};
ghost use Rattle.nt_laws.specs.Reading.{IsBegun, IsBegunAs, IsReadAs, IsReadUpTo};
ghost use Rattle.pt_io.specs.Taken.{IsPrefix};

use nt_blocks::what_a_body_holds_is_read;

/// In a stream whose bodies are no larger than a reader takes, 16,777,216 bytes, a whole stream is found, with the
/// items that its bodies hold.
pub fn a_well_formed_stream_is_read_whole()
    ensures { (info : TraceInfo) (items : List Item) (bytes : List ℕ) → IsTrace info items bytes
        → verdict bytes ≡ Good items }
{
    what_a_body_holds_is_read();
}

/// The canonical stream of entries is read whole (`read`). Its items are found, and no others (`only`); they stand in
/// order and tell the entries.
pub fn a_canonical_stream_is_read_whole()
    ensures read { (info : TraceInfo) (entries : List Entry) (bytes : List ℕ)
        (canonical : IsCanonical info entries bytes) → IsReadAs info entries canonical.items bytes }
    ensures only { (info : TraceInfo) (entries : List Entry) (items : List Item) (bytes : List ℕ)
        → IsCanonical info entries bytes → verdict bytes ≡ Good items
        → IsReadAs info entries items bytes }
{
    a_well_formed_stream_is_read_whole();
}

/// A stream that is cut, anywhere before its end, is found to go on: nothing in it is refused, and its first items are
/// found (`cut`). Those of a canonical stream stand in order and tell the first entries (`told`): so does what a
/// writer's sink took up to a fault.
pub fn a_stream_that_is_cut_is_not_refused()
    ensures cut { (info : TraceInfo) (items : List Item) (part left : List ℕ)
        → IsTrace info items (part ++ left) → 0 < length left → IsBegun items part }
    ensures told { (info : TraceInfo) (entries : List Entry) (part left : List ℕ)
        → IsCanonical info entries (part ++ left) → 0 < length left → IsBegunAs entries part }
{
    what_a_body_holds_is_read();
}

/// What begins the canonical stream of entries, or is all of it, is read as far as it goes: nothing in it is refused,
/// and the items that are there stand in order and tell the first entries.
pub fn a_part_of_a_stream_is_found()
    ensures { (info : TraceInfo) (entries : List Entry) (part bytes : List ℕ)
        → IsCanonical info entries bytes → IsPrefix part bytes → IsReadUpTo entries part }
{
    a_canonical_stream_is_read_whole();
    a_stream_that_is_cut_is_not_refused();
}

/// The canonical stream of entries is found to be a whole one (`found`), in whose items each name is defined before
/// its use (`ordered`); and where the entries are faithful the items tell of each thread what its share has
/// (`faithful`).
pub fn a_faithful_stream_is_found()
    ensures found { (info : TraceInfo) (entries : List Entry) (bytes : List ℕ)
        → (canonical : IsCanonical info entries bytes) → verdict bytes ≡ Good canonical.items }
    ensures ordered { (info : TraceInfo) (entries : List Entry) (bytes : List ℕ)
        → (canonical : IsCanonical info entries bytes) → AreOrdered canonical.items }
    ensures faithful { (info : TraceInfo) (shares : List Share) (entries : List Entry) (bytes : List ℕ)
        → AreFaithful shares entries → (canonical : IsCanonical info entries bytes) → Faithful shares canonical.items }
{
    a_canonical_stream_is_read_whole();
}

/// Where a program's entries are faithful, the canonical stream of the entries with the section of a rundown tells of each
/// thread of the program what its share has, once what is the rundown's is left out.
pub fn a_stream_with_a_rundown_is_faithful()
    ensures { (rundown : Bool) (info : TraceInfo) (shares : List Share) (entries : List Entry)
        (bytes : List ℕ) → AreFaithful shares entries → AreOfProgram entries
        → TellsShares rundown info shares entries bytes }
{
    a_faithful_stream_is_found();
}
