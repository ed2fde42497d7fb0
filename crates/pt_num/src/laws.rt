//! Laws of the definitions: what is put is taken as itself whatever follows, what is taken begins with a form of its
//! value, no form begins another, and a number has one short form.
ghost use Rattle.std.specs.Prelude.{◌≡◌, ℕ, ◌^◌, ◌<◌, ◌++◌, List, Ok, drop, slice_index};
ghost use Rattle.std.specs.Int.{w16, w32, w64};
ghost use Rattle.pt_num.specs.Begins.{AreBytes, Begins};
ghost use Rattle.pt_num.specs.Numbers.{fixed, short_var, IsVar, IsShortVar};
ghost use Rattle.pt_num.specs.Pieces.{Exactly};
ghost use Rattle.pt_num.specs.Texts.{IsTextC, IsTextZ};
ghost use Rattle.pt_num.specs.Fields.{fixed_at, text_c_at, text_z_at, var_at};

/// A number or a text is read back from its bytes, whatever follows.
pub fn what_is_put_is_taken()
    ensures fixed16 { (n : ℕ) (rest : List ℕ) → n < 2 ^ 16
        → fixed_at w16 (fixed w16 n ++ rest) ≡ Ok (n, rest) }
    ensures fixed32 { (n : ℕ) (rest : List ℕ) → n < 2 ^ 32
        → fixed_at w32 (fixed w32 n ++ rest) ≡ Ok (n, rest) }
    ensures fixed64 { (n : ℕ) (rest : List ℕ) → n < 2 ^ 64
        → fixed_at w64 (fixed w64 n ++ rest) ≡ Ok (n, rest) }
    ensures var32 { (n : ℕ) (bytes rest : List ℕ) → IsVar w32 n bytes
        → var_at w32 (bytes ++ rest) ≡ Ok (n, rest) }
    ensures var64 { (n : ℕ) (bytes rest : List ℕ) → IsVar w64 n bytes
        → var_at w64 (bytes ++ rest) ≡ Ok (n, rest) }
    ensures text_z { (units bytes rest : List ℕ) → IsTextZ units bytes
        → text_z_at (bytes ++ rest) ≡ Ok (units, rest) }
    ensures text_c { (units bytes rest : List ℕ) → IsTextC units bytes
        → text_c_at (bytes ++ rest) ≡ Ok (units, rest) }
{}

/// What is read begins with a form of its value.
pub fn what_is_taken_is_a_form()
    ensures fixed16 { (n : ℕ) (bytes rest : List ℕ) → AreBytes bytes → fixed_at w16 bytes ≡ Ok (n, rest)
        → Begins (Exactly (fixed w16 n)) bytes rest }
    ensures fixed32 { (n : ℕ) (bytes rest : List ℕ) → AreBytes bytes → fixed_at w32 bytes ≡ Ok (n, rest)
        → Begins (Exactly (fixed w32 n)) bytes rest }
    ensures fixed64 { (n : ℕ) (bytes rest : List ℕ) → AreBytes bytes → fixed_at w64 bytes ≡ Ok (n, rest)
        → Begins (Exactly (fixed w64 n)) bytes rest }
    ensures var32 { (n : ℕ) (bytes rest : List ℕ) → AreBytes bytes → var_at w32 bytes ≡ Ok (n, rest)
        → Begins (IsVar w32 n) bytes rest }
    ensures var64 { (n : ℕ) (bytes rest : List ℕ) → AreBytes bytes → var_at w64 bytes ≡ Ok (n, rest)
        → Begins (IsVar w64 n) bytes rest }
    ensures text_z { (units bytes rest : List ℕ) → AreBytes bytes → text_z_at bytes ≡ Ok (units, rest)
        → Begins (IsTextZ units) bytes rest }
    ensures text_c { (units bytes rest : List ℕ) → AreBytes bytes → text_c_at bytes ≡ Ok (units, rest)
        → Begins (IsTextC units) bytes rest }
{}

/// No number and no text begins another: bytes begin with one form at most.
pub fn no_form_begins_another()
    ensures fixed16 { (n m : ℕ) (more other : List ℕ) → n < 2 ^ 16 → m < 2 ^ 16
        → fixed w16 n ++ more ≡ fixed w16 m ++ other → (n ≡ m) × (more ≡ other) }
    ensures fixed32 { (n m : ℕ) (more other : List ℕ) → n < 2 ^ 32 → m < 2 ^ 32
        → fixed w32 n ++ more ≡ fixed w32 m ++ other → (n ≡ m) × (more ≡ other) }
    ensures fixed64 { (n m : ℕ) (more other : List ℕ) → n < 2 ^ 64 → m < 2 ^ 64
        → fixed w64 n ++ more ≡ fixed w64 m ++ other → (n ≡ m) × (more ≡ other) }
    ensures var32 { (n m : ℕ) (xs ys more other : List ℕ) → IsVar w32 n xs → IsVar w32 m ys
        → xs ++ more ≡ ys ++ other
        → (n ≡ m) × (xs ≡ ys) }
    ensures var64 { (n m : ℕ) (xs ys more other : List ℕ) → IsVar w64 n xs → IsVar w64 m ys
        → xs ++ more ≡ ys ++ other
        → (n ≡ m) × (xs ≡ ys) }
    ensures text_z { (units others xs ys more other : List ℕ) → IsTextZ units xs → IsTextZ others ys
        → xs ++ more ≡ ys ++ other → (units ≡ others) × (xs ≡ ys) }
    ensures text_c { (units others xs ys more other : List ℕ) → IsTextC units xs → IsTextC others ys
        → xs ++ more ≡ ys ++ other → (units ≡ others) × (xs ≡ ys) }
{}

/// A number has one short form.
pub fn one_short_form()
    ensures var32 { (n : ℕ) (bytes : List ℕ) → IsShortVar w32 n bytes → bytes ≡ short_var w32 n }
    ensures var64 { (n : ℕ) (bytes : List ℕ) → IsShortVar w64 n bytes → bytes ≡ short_var w64 n }
{}
