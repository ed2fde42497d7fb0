//! Laws of the definitions: an object that is put is taken back, and no written form begins another.
ghost use Rattle.std.specs.Prelude.{◌≡◌, ℕ, ◌+◌, ◌++◌, List, length, drop, IsTrue};
ghost use Rattle.ep_defs.specs.declared.session.TraceInfo.{TraceInfo};
ghost use Rattle.ep_defs.specs.Session.{is_info};
ghost use Rattle.nt_object.specs.declared.head.ObjectKind.TheVariants as kind;
ghost use Rattle.nt_object.specs.declared.head.ObjectHead.TheVariants as head;
ghost use Rattle.nt_object.specs.declared.limits.TheConstants.{HEAD_BYTES};
ghost use Rattle.nt_object.specs.Object.{block_bytes, block_name, trace_object, Block, CanStand};
ghost use Rattle.nt_object.specs.Stream.{stream_start};
ghost use Rattle.nt_object.specs.Reading.{object_head_at};

use pt_num::no_form_begins_another as numbers_begin_no_others;

/// The head of an object that is put is taken as its kind, up to the tag after its type's name, whatever follows.
pub fn what_is_put_is_taken()
    ensures start { (info : TraceInfo) (rest : List ℕ)
        → object_head_at (drop HEAD_BYTES (stream_start info ++ rest))
        ≡ head.Head kind.Trace 21 }
    ensures trace { (info : TraceInfo) (rest : List ℕ) → object_head_at (trace_object info ++ rest)
        ≡ head.Head kind.Trace 21 }
    ensures block { (block : Block) (rest : List ℕ) → object_head_at (block_bytes block ++ rest)
        ≡ head.Head (kind.Block block.kind) (16 + length (block_name block.kind)) }
{}

/// No start of a stream begins another, no block another that may stand at the same offset, and no block a Trace
/// object.
pub fn no_form_begins_another()
    ensures start { (info other : TraceInfo) (more rest : List ℕ) → IsTrue (is_info info)
        → IsTrue (is_info other)
        → stream_start info ++ more ≡ stream_start other ++ rest → (info ≡ other) × (more ≡ rest) }
    ensures block { (at : ℕ) (block other : Block) (more rest : List ℕ) → CanStand at block
        → CanStand at other
        → block_bytes block ++ more ≡ block_bytes other ++ rest → (block ≡ other) × (more ≡ rest) }
    ensures kinds { (info : TraceInfo) (block : Block) (more rest : List ℕ)
        → trace_object info ++ more ≡ block_bytes block ++ rest → ⊥ }
{
    numbers_begin_no_others();
}
