//! The words that the lines of steps begin with.
ghost use Rattle.std.specs.Prelude.{◌≡◌};
ghost use Rattle.ep_plan.specs.Lines.{form_of, verb_in};

/// The first word of a step's line.
#[derive(Clone, Copy, Debug)]
pub(crate) enum Verb {
    /// A session with stacks.
    Accept,
    /// A session, and whether it has stacks.
    Accept3,
    /// A session, and whether it has stacks and a rundown.
    Accept4,
    Enter,
    Leave,
    Open,
    Begin,
    Show,
    End,
    Steal,
    Give,
    Point,
    Close,
    Finish,
}

const VERBS: [Verb; 14] = [
    Verb::Accept,
    Verb::Accept3,
    Verb::Accept4,
    Verb::Enter,
    Verb::Leave,
    Verb::Open,
    Verb::Begin,
    Verb::Show,
    Verb::End,
    Verb::Steal,
    Verb::Give,
    Verb::Point,
    Verb::Close,
    Verb::Finish,
];

impl Verb {
    /// The verb that a word is the name of.
    pub(crate) fn named(word: &[u8]) -> Option<Verb>
        ensures { result ≡ verb_in word.now }
    {
        // Nearly all lines of a long schedule begin with one of these three.
        if word == b"begin".as_slice() {
            return Some(Verb::Begin);
        }
        if word == b"show".as_slice() {
            return Some(Verb::Show);
        }
        if word == b"end".as_slice() {
            return Some(Verb::End);
        }
        VERBS.iter().copied().find(|verb| word == verb.name())
    }

    pub(crate) fn name(self) -> &'static [u8]
        ensures { result.now ≡ (form_of self).name }
    {
        match self {
            Verb::Accept => b"accept",
            Verb::Accept3 => b"accept3",
            Verb::Accept4 => b"accept4",
            Verb::Enter => b"enter",
            Verb::Leave => b"leave",
            Verb::Open => b"open",
            Verb::Begin => b"begin",
            Verb::Show => b"show",
            Verb::End => b"end",
            Verb::Steal => b"steal",
            Verb::Give => b"give",
            Verb::Point => b"point",
            Verb::Close => b"close",
            Verb::Finish => b"finish",
        }
    }
}
