//! What is left of a line.
ghost use Rattle.std.specs.Prelude.{◌<◌, length};
ghost use Rattle.std.specs.Option.{ForSome};

mod take;

/// What is left of a line.
#[derive(Drop)]
pub(crate) struct Cursor<'a> {
    line: u64,
    // One past the line's end, as a column.
    past: usize,
    // `None` after the last word.
    rest: Option<&'a [u8]>,
    ghost in_range: { ForSome rest (λ text. length text.now < past) },
}
