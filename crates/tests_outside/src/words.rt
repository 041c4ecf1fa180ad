// Words of the commands, and words that are no command's, by hand.
use std::alloc::Global;
use std::test::Fail;
use wave_base::types::Memory;
use wave_words::form::{Form, has_form};
use wave_words::usage::usage;

fn strings(alloc: Global, words: &[&str]) -> Result<Vec<String>, Memory> {
    let mut strings = Vec::new(alloc);
    for word in words {
        strings.push(String::from_str(alloc, *word)?)?;
    }
    Ok(strings)
}

fn asked(alloc: Global, words: &[&str]) -> Result<Result<Form, u32>, Fail> {
    let words = strings(alloc, words)?;
    if words.len() > 100 {
        return Err("too many words".into());
    }
    let forms = [
        Form::Run,
        Form::DemoGrid,
        Form::DemoLower,
        Form::Plan,
        Form::Replay,
        Form::Check,
        Form::Explain,
        Form::Show,
    ];
    Ok(usage(&forms, words.as_slice()))
}

#[test]
fn words_of_commands_are_taken(rt: HostRuntime) -> Result<(), Fail> {
    let table: [(&[&str], Form); 11] = [
        (&["run", "L", "A", "1"], Form::Run),
        (&["run", "", "A", "64", "B", "C", "D"], Form::Run),
        (&["demo", "grid", "1", "1"], Form::DemoGrid),
        (&["demo", "grid", "400", "64"], Form::DemoGrid),
        (&["demo", "lower", "0", "1"], Form::DemoLower),
        (&["demo", "lower", "4294967295", "1"], Form::DemoLower),
        (&["plan", "L", "A", "2", "B"], Form::Plan),
        (&["replay", "L", "A", "9", "O"], Form::Replay),
        (&["check", "L", "A"], Form::Check),
        (&["explain", "L"], Form::Explain),
        (&["show", "L"], Form::Show),
    ];
    for (words, form) in table {
        assert_eq!(rt; asked(rt.alloc(), words)?, Ok(form));
    }
    Ok(())
}

#[test]
fn the_first_wrong_or_missing_word_is_named(rt: HostRuntime) -> Result<(), Fail> {
    let table: [(&[&str], u32); 20] = [
        (&[], 0),
        (&["walk"], 0),
        (&["RUN"], 0),
        (&["run"], 1),
        (&["run", "L", "A"], 3),
        (&["run", "L", "A", "0"], 3),
        (&["run", "L", "A", "65"], 3),
        (&["run", "L", "A", "01"], 3),
        (&["run", "L", "A", "+1"], 3),
        (&["demo"], 1),
        (&["demo", "cube"], 1),
        (&["demo", "grid", "0", "1"], 2),
        (&["demo", "grid", "401", "1"], 2),
        (&["demo", "lower", "00", "1"], 2),
        (&["demo", "lower", "4294967296", "1"], 2),
        (&["demo", "grid", "1", "1", "1"], 4),
        (&["replay", "L", "A", "1"], 4),
        (&["check", "L"], 2),
        (&["explain", "L", "L"], 2),
        (&["show"], 1),
    ];
    for (words, wrong) in table {
        assert_eq!(rt; asked(rt.alloc(), words)?, Err(wrong));
    }
    Ok(())
}

#[test]
fn forms_differ(rt: HostRuntime) -> Result<(), Fail> {
    let words = strings(rt.alloc(), &["show", "L"])?;
    assert_eq!(rt; has_form(words.as_slice(), Form::Show), true);
    assert_eq!(rt; has_form(words.as_slice(), Form::Explain), false);
    Ok(())
}
