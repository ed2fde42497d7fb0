//! The words of the command line.
ghost use Rattle.std.specs.Prelude.{◌≡◌, map};
ghost use Rattle.std.specs.String.{string_bytes};
ghost use Rattle.pt_events.specs.Words.{form_in};

use pt_lines::Form;

/// The form in which the words of the command line, without the program's name, ask for the events of a stream, where they
/// are `events`, `events --json`, `convert chromium` or `page`.
pub fn form_of(words: &[String]) -> Option<Form>
    ensures { result ≡ form_in (map string_bytes words.now) }
{
    match words {
        [name] if name.as_str() == "events" => Some(Form::Lines),
        [name] if name.as_str() == "page" => Some(Form::Page),
        [name, option] if name.as_str() == "events" && option.as_str() == "--json" => {
            Some(Form::Json)
        }
        [name, target] if name.as_str() == "convert" && target.as_str() == "chromium" => {
            Some(Form::Chromium)
        }
        _ => None,
    }
}
