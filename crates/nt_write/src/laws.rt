//! What holds of the definitions alone: the canonical stream is one of the format, and there is one at most.
ghost use Rattle.std.specs.Prelude.{◌≡◌, ℕ, ◌^◌, ◌<◌, List, length, IsTrue};
ghost use Rattle.std.specs.List.{AllByRecursion};
ghost use Rattle.ep_defs.specs.declared.session.TraceInfo.{TraceInfo};
ghost use Rattle.ep_defs.specs.Session.{is_info};
ghost use Rattle.ep_defs.specs.Entry.{Entry};
ghost use Rattle.nt_head.specs.declared.head.HeadState.{HeadState};
ghost use Rattle.nt_write.specs.Layout.{empty_layout, with_entries};
ghost use Rattle.nt_write.specs.Canonical.{encoded, IsCanonical};
ghost use Rattle.nt_write.specs.Words.{AreInWords, FlagsStand};
ghost use Rattle.nt_write.specs.Writable.{CanTell, StacksFit};

/// What the writer makes of entries is a stream of the format that tells them, where each entry can be written and
/// the ids of the definitions, and of the stacks since each point, fit 31 bits.
pub fn written_is_canonical()
    ensures any { (info : TraceInfo) (entries : List Entry) → IsTrue (is_info info)
        → AllByRecursion CanTell entries
        → length (with_entries empty_layout entries).definitions < 2 ^ 31
        → StacksFit empty_layout entries → IsCanonical info entries (encoded info entries) }
{}

/// For one info and one list of entries there is at most one canonical stream.
pub fn one_stream_at_most()
    ensures same { (info : TraceInfo) (entries : List Entry) (a b : List ℕ)
        → IsCanonical info entries a → IsCanonical info entries b → a ≡ b }
{}

/// The canonical stream in words, where its entries can be written: padding is zero, no body but a point's passes
/// 102,400 bytes, the bodies of events and of definitions have a header of 20 bytes with the least and the greatest
/// stamp, ids are given in order, from 1 on, those of stacks anew after each point, and each is defined before its use.
pub fn a_canonical_stream_is_as_the_words_say()
    ensures { (info : TraceInfo) (entries : List Entry) (bytes : List ℕ)
        → AllByRecursion CanTell entries
        → length (with_entries empty_layout entries).definitions < 2 ^ 31
        → StacksFit empty_layout entries → IsCanonical info entries bytes → AreInWords info bytes }
{}

/// In the header that is written for a blob a flag stands exactly where the value differs from that of the blob before.
pub fn a_flag_stands_where_its_value_differs()
    ensures { (before now : HeadState) → FlagsStand before now }
{}
