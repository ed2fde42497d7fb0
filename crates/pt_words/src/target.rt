//! The path of a peer's socket.
ghost use Rattle.std.specs.Prelude.{◌≡◌};
ghost use Rattle.pt_words.specs.Target.{target_in};

use std::marker::Model;

/// The path of a peer's socket, which has a byte or more.
#[derive(Debug, Drop)]
pub struct Target<'a> {
    path: &'a str,
}

impl<'a> Model for Target<'a> {
    ghost use Rattle.std.specs.Prelude.{List, ℕ};

    ghost Value = { List ℕ };

    ghost view = { λ target. target.path.now };
}

impl<'a> Target<'a> {
    /// The path that a word is; none where it is empty.
    pub fn new(word: &'a str) -> Option<Target<'a>>
        ensures { result ≡ target_in word.now }
    {
        if word.is_empty() {
            return None;
        }
        Some(Target { path: word })
    }

    /// The path as a text.
    pub fn path(&self) -> &'a str
        ensures { result.now ≡ self.now }
    {
        self.path
    }
}
