//! The forms of a line.
ghost use Rattle.std.specs.Prelude.{◌≡◌};
ghost use Rattle.pt_lines.specs.Around as texts;
ghost use Rattle.pt_lines.specs.Around.{head_of, tail_of};

use crate::page::text::HEAD;

/// How lines are written.
#[derive(Clone, Copy, Debug, PartialEq, Eq)]
pub enum Form {
    /// A word, numbers, names and values, as in a report.
    Lines,
    /// An object of JSON.
    Json,
    /// An object of a file of trace events, as Chromium's tools read it.
    Chromium,
    /// An object of JSON in a page of HTML that shows the trace.
    Page,
}

impl Form {
    /// What stands before the lines.
    pub fn head(self) -> &'static str
        ensures { result.now ≡ head_of self }
    {
        match self {
            Form::Lines | Form::Json => "",
            Form::Chromium => "{\"displayTimeUnit\":\"ns\",\"traceEvents\":[",
            Form::Page => HEAD,
        }
    }

    /// What is shown of lines, by whether they are the first: the first object has no comma before it.
    pub fn shown(self, is_first: bool, lines: &[u8]) -> &[u8]
        ensures { result.now ≡ texts.shown self is_first lines.now }
    {
        match self {
            Form::Chromium | Form::Page if is_first && !lines.is_empty() => &lines[1..],
            _ => lines,
        }
    }

    /// What stands behind the lines of a whole stream.
    pub fn tail(self) -> &'static str
        ensures { result.now ≡ tail_of self }
    {
        match self {
            Form::Lines | Form::Json => "",
            Form::Chromium => "\n]}\n",
            Form::Page => "]</script>\n</body>\n</html>\n",
        }
    }
}
