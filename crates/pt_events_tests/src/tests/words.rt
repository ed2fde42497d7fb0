//! The words that ask for events.
use pt_events::{Form, form_of};
use std::alloc::{AllocError, Global};
use std::test::Fail;

fn asked(alloc: Global, texts: &[&str]) -> Result<Option<Form>, AllocError> {
    let mut words = Vec::new(alloc);
    for text in texts {
        words.push(String::from_str(alloc, text)?)?;
    }
    Ok(form_of(&words))
}

#[test]
fn the_words_of_events_are_told_from_others(rt: HostRuntime) -> Result<(), Fail> {
    let cases: [(&[&str], Option<Form>); 21] = [
        (&["events"], Some(Form::Lines)),
        (&["events", "--json"], Some(Form::Json)),
        (&["--json", "events"], None),
        (&["events", "--json", "--json"], None),
        (&["events", "--JSON"], None),
        (&[], None),
        (&["event"], None),
        (&["Events"], None),
        (&["events", "--xml"], None),
        (&["events", "events"], None),
        (&["convert", "chromium"], Some(Form::Chromium)),
        (&["convert"], None),
        (&["convert", "Chromium"], None),
        (&["convert", "--json"], None),
        (&["events", "chromium"], None),
        (&["convert", "chromium", "chromium"], None),
        (&["page"], Some(Form::Page)),
        (&["Page"], None),
        (&["page", "--json"], None),
        (&["page", "page"], None),
        (&["convert", "page"], None),
    ];
    for (texts, want) in cases {
        assert_eq!(rt; asked(rt.alloc(), texts)?, want);
    }
    Ok(())
}
