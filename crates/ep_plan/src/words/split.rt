//! The parts of a text between separators.
ghost use Rattle.std.specs.Prelude.{◌≡◌, ◌≢◌, ◌+◌, [], ◌∷◌, length, IfSome, IfNone};
ghost use Rattle.std.specs.Option.{option_copied};
ghost use Rattle.ep_plan.specs.Words.{parts_at, parts_behind};

/// The part of a text before the first byte of this value, and what stands after that byte, where there is one.
pub(crate) fn first_part(text: &[u8], separator: u8) -> (&[u8], Option<&[u8]>)
    ensures parts { parts_at separator text.now ≡ result.0.now ∷ parts_behind separator (option_copied result.1) }
    ensures lengths { IfSome result.1 (λ rest. length result.0.now + 1 + length rest.now ≡ length text.now) }
    ensures whole { IfNone result.1 (result.0.now ≡ text.now) }
{
    match text.iter().position(|byte| *byte == separator) {
        Some(end) => (&text[..end], Some(&text[end + 1..])),
        None => (text, None),
    }
}

/// The two parts of a text that has no more and no fewer.
pub(crate) fn two_parts(text: &[u8], separator: u8) -> Option<(&[u8], &[u8])>
    ensures some { IfSome result (λ parts. parts_at separator text.now ≡ parts.0.now ∷ parts.1.now ∷ []) }
    ensures none { IfNone result (length (parts_at separator text.now) ≢ 2) }
{
    let (first, rest) = first_part(text, separator);
    let (second, rest) = first_part(rest?, separator);
    match rest {
        Some(_) => None,
        None => Some((first, second)),
    }
}

/// The three parts of a text that has no more and no fewer.
pub(crate) fn three_parts(text: &[u8], separator: u8) -> Option<(&[u8], &[u8], &[u8])>
    ensures some { IfSome result (λ parts. parts_at separator text.now ≡ parts.0.now ∷ parts.1.now ∷ parts.2.now ∷ []) }
    ensures none { IfNone result (length (parts_at separator text.now) ≢ 3) }
{
    let (first, rest) = first_part(text, separator);
    let (second, third) = two_parts(rest?, separator)?;
    Some((first, second, third))
}
