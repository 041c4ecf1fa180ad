// The words of the command line as texts.
ghost use Rattle.std.specs.Prelude.{◌≡◌, ◌≤◌, Some};
ghost use Rattle.wave_words.specs.Forms.{number};
ghost use Rattle.wave_words.specs.Words.{texts};
ghost use Rattle.wave_main.specs.Commands.{AskForNumber, AskForWorkers};
ghost use Rattle.wave_main.specs.Demo.{IsNumberOf};
ghost use Rattle.wave_main.specs.Files.{word_of};

use crate::demo::Kind;
use text_base::numbers::natural;

/// The text of the word at a place, and no text past the last.
pub fn word_at(words: &[String], at: usize) -> &str
    ensures { result.now ≡ word_of (texts words.now) at }
{
    match words.get(at) {
        Some(word) => word.as_str(),
        None => "",
    }
}

/// The number of workers that words ask for.
pub fn workers_of(words: &[String]) -> u32
    requires { AskForWorkers (texts words.now) }
    ensures number { number (word_of (texts words.now) 3) ≡ Some result }
    ensures some { 1 ≤ result }
    ensures few { result ≤ 64 }
{
    match natural(word_at(words, 3).as_bytes()) {
        Some(workers) => workers as u32,
        None => unreachable!(),
    }
}

/// The number that words of a demo ask for.
pub fn made_of(words: &[String], kind: Kind) -> u32
    requires { AskForNumber kind (texts words.now) }
    ensures number { number (word_of (texts words.now) 2) ≡ Some result }
    ensures is { IsNumberOf kind result }
{
    match natural(word_at(words, 2).as_bytes()) {
        Some(made) => made as u32,
        None => unreachable!(),
    }
}
