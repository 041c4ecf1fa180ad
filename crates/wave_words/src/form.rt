// The commands, and how far words follow the form of one.
ghost use Rattle.std.specs.Prelude.{◌≡◌, ◌≤◌, length};
ghost use Rattle.wave_words.specs.Forms.{slots_of, takes_files, is_whole, reach, form_reach, has_form};
ghost use Rattle.wave_words.specs.Words.{texts};

use crate::slot::{Slot, fits};

/// A command, by the form of its words.
#[derive(Clone, Copy, Debug, PartialEq, Eq)]
pub enum Form {
    Run,
    DemoGrid,
    DemoLower,
    Plan,
    Replay,
    Check,
    Explain,
    Show,
}

/// Whether words fit the places, with any words after them where `files` says so. It calls itself
/// once for each place.
fn is_whole(files: bool, slots: &[Slot], words: &[String]) -> bool
    ensures { result ≡ is_whole files slots.now (texts words.now) }
{
    let [slot, more @ ..] = slots else {
        return files || words.is_empty();
    };
    let [word, others @ ..] = words else {
        return false;
    };
    fits(*slot, word.as_str()) && is_whole(files, more, others)
}

/// How many words, from the first on, fit the places. It calls itself once for each place.
fn reach(files: bool, slots: &[Slot], words: &[String]) -> usize
    ensures count { result ≡ reach files slots.now (texts words.now) }
    ensures within { result ≤ length words.now }
{
    let [slot, more @ ..] = slots else {
        return if files { words.len() } else { 0 };
    };
    let [word, others @ ..] = words else {
        return 0;
    };
    if fits(*slot, word.as_str()) {
        reach(files, more, others) + 1
    } else {
        0
    }
}

const FILE: Slot = Slot::Name;

/// What stands at the places of a command's words.
fn slots_of(form: Form) -> &'static [Slot]
    ensures { result.now ≡ slots_of form }
{
    match form {
        Form::Run => &[Slot::Run, FILE, FILE, Slot::Workers],
        Form::DemoGrid => &[Slot::Demo, Slot::Grid, Slot::Side, Slot::Workers],
        Form::DemoLower => &[Slot::Demo, Slot::Lower, Slot::Seed, Slot::Workers],
        Form::Plan => &[Slot::Plan, FILE, FILE, Slot::Workers],
        Form::Replay => &[Slot::Replay, FILE, FILE, Slot::Workers, FILE],
        Form::Check => &[Slot::Check, FILE, FILE],
        Form::Explain => &[Slot::Explain, FILE],
        Form::Show => &[Slot::Show, FILE],
    }
}

/// Whether any number of files may follow the places.
fn takes_files(form: Form) -> bool
    ensures { result ≡ takes_files form }
{
    matches!(form, Form::Run | Form::Plan | Form::Replay | Form::Check)
}

/// Whether words are those of a command.
pub fn has_form(words: &[String], form: Form) -> bool
    ensures { result ≡ has_form (texts words.now) form }
{
    is_whole(takes_files(form), slots_of(form), words)
}

/// How many words, from the first on, may begin words of a command.
pub fn form_reach(words: &[String], form: Form) -> usize
    ensures count { result ≡ form_reach (texts words.now) form }
    ensures within { result ≤ length words.now }
{
    reach(takes_files(form), slots_of(form), words)
}
