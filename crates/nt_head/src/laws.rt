//! Laws of the definitions: a header is read back as itself whatever follows, what is read begins with a header that
//! says it, and no header begins another.
ghost use Rattle.std.specs.Prelude.{◌≡◌, ℕ, ◌++◌, List, Ok};
ghost use Rattle.pt_num.specs.Begins.{AreBytes, Begins};
ghost use Rattle.nt_head.specs.declared.head.HeadState.{HeadState};
ghost use Rattle.nt_head.specs.Head.{IsHead};
ghost use Rattle.nt_head.specs.Reading.{head_at};

/// A header is read back as itself, whatever follows.
pub fn what_is_put_is_taken()
    ensures { (before now : HeadState) (bytes rest : List ℕ) → IsHead before now bytes
        → head_at before (bytes ++ rest) ≡ Ok (now, rest) }
{}

/// What is read begins with a header that says it.
pub fn what_is_taken_is_a_form()
    ensures { (before now : HeadState) (bytes rest : List ℕ) → AreBytes bytes
        → head_at before bytes ≡ Ok (now, rest)
        → Begins (IsHead before now) bytes rest }
{}

/// No header begins another after the same blob: bytes begin with one at most.
pub fn no_form_begins_another()
    ensures { (before now other : HeadState) (xs ys more rest : List ℕ) → IsHead before now xs
        → IsHead before other ys
        → xs ++ more ≡ ys ++ rest → (now ≡ other) × (xs ≡ ys) }
{}
