// Lines of words, in a buffer on the stack.
ghost use Rattle.std.specs.Prelude.{◌≡◌, ◌+◌, ◌<◌, ◌≤◌, ◌++◌, [], ◌∷◌, length, decimal, MatchOption};
ghost use Rattle.std.specs.List.{All};
ghost use Rattle.arrayvec.specs.ArrayString.{array_string_len};
ghost use Rattle.wave_main.specs.Pieces.{piece_text, texts_of, IsShort};
ghost use Rattle.wave_main.specs.Status.{after_word, spaced};

use arrayvec::ArrayString;
use itoa::Buffer;

/// Room for six words of at most twenty bytes, with one byte after each.
pub const ROOM: usize = 126;

/// A word of a line, or some that stand together.
#[derive(Clone, Copy)]
pub enum Piece {
    /// At most twenty bytes.
    Text(&'static str),
    Number(u64),
    Signed(i64),
}

fn split_first(words: &[Piece]) -> Option<(Piece, &[Piece])>
    ensures { MatchOption result (words.now ≡ []) (λ x. words.now ≡ x.0 ∷ x.1.now) }
{
    match words {
        [] => None,
        [first, rest @ ..] => Some((*first, rest)),
    }
}

fn after_word(rest: &[Piece]) -> &'static str
    ensures end { result.now ≡ after_word (texts_of rest.now) }
    ensures one { length result.now ≡ 1 }
{
    if rest.is_empty() { "\n" } else { " " }
}

fn push_word(line: &mut ArrayString<ROOM>, word: Piece)
    requires short { IsShort word }
    requires room { array_string_len line.old + 20 ≤ ROOM }
    ensures bytes { line.new.bytes ≡ line.old.bytes ++ piece_text word }
    ensures room { array_string_len line.new ≤ array_string_len line.old + 20 }
{
    match word {
        Piece::Text(text) => line.push_str(text),
        Piece::Number(number) => {
            let mut buffer = Buffer::new();
            line.push_str(buffer.format(number));
        }
        Piece::Signed(number) => {
            let mut buffer = Buffer::new();
            line.push_str(buffer.format(number));
        }
    }
}

/// Words with one space between them, and the line's end; nothing where there are none.
pub fn line_of(words: &[Piece]) -> ArrayString<ROOM>
    requires few { length words.now ≤ 6 }
    requires short { All IsShort words.now }
    ensures { result.bytes ≡ spaced (texts_of words.now) }
{
    let mut line = ArrayString::new();
    let mut rest = words;
    while let Some((word, after)) = split_first(rest) {
        push_word(&mut line, word);
        line.push_str(after_word(after));
        rest = after;
    }
    line
}

/// The line of a text and a number.
pub fn one(text: &'static str, number: u64) -> ArrayString<ROOM>
    requires { length text.now ≤ 20 }
    ensures { result.bytes ≡ spaced (text.now ∷ decimal number ∷ []) }
{
    line_of(&[Piece::Text(text), Piece::Number(number)])
}

/// The line of a text, a number and a text.
pub fn one_named(text: &'static str, number: u64, name: &'static str) -> ArrayString<ROOM>
    requires text { length text.now ≤ 20 }
    requires name { length name.now ≤ 20 }
    ensures { result.bytes ≡ spaced (text.now ∷ decimal number ∷ name.now ∷ []) }
{
    line_of(&[Piece::Text(text), Piece::Number(number), Piece::Text(name)])
}

/// The line of two texts, with a number after each.
pub fn two(first: &'static str, a: u64, second: &'static str, b: u64) -> ArrayString<ROOM>
    requires first { length first.now ≤ 20 }
    requires second { length second.now ≤ 20 }
    ensures { result.bytes ≡ spaced (first.now ∷ decimal a ∷ second.now ∷ decimal b ∷ []) }
{
    line_of(&[
        Piece::Text(first),
        Piece::Number(a),
        Piece::Text(second),
        Piece::Number(b),
    ])
}
