// The words of a line: numbers, reserved words and names.
ghost use Rattle.std.specs.Prelude.{◌≡◌};
ghost use Rattle.std.specs.Str.{bytes_eq};
ghost use Rattle.text_base.specs.Numbers.{natural as value_of};
ghost use Rattle.loop_core.specs.Names.{is_digit, is_letter, is_name_byte};
ghost use Rattle.loop_lines.specs.Words.{lookup, declaring, relating, nesting, keeping, unused, keyword, number, digits_token, name_form, letters_token, word_token, as_name, dotted};

use crate::number::Natural;
use crate::token::{Keyword, Token};
use loop_core::name::Name;
use text_base::numbers::natural;

fn is_word(word: &[u8], text: &[u8]) -> bool
    ensures { result ≡ bytes_eq word.now text.now }
{
    word == text
}

fn is_digit(byte: u8) -> bool
    ensures { result ≡ is_digit byte }
{
    byte.is_ascii_digit()
}

fn is_letter(byte: u8) -> bool
    ensures { result ≡ is_letter byte }
{
    byte.is_ascii_lowercase()
}

/// Whether a byte is a small letter, a digit or `_`.
pub fn is_name_byte(byte: u8) -> bool
    ensures { result ≡ is_name_byte byte }
{
    is_letter(byte) || is_digit(byte) || byte == b'_'
}

fn declaring(word: &[u8]) -> Option<Keyword>
    ensures { result ≡ lookup word.now declaring }
{
    if is_word(word, b"matrix") {
        Some(Keyword::Matrix)
    } else if is_word(word, b"csr") {
        Some(Keyword::Csr)
    } else if is_word(word, b"csc") {
        Some(Keyword::Csc)
    } else if is_word(word, b"index") {
        Some(Keyword::Index)
    } else if is_word(word, b"vector") {
        Some(Keyword::Vector)
    } else if is_word(word, b"file") {
        Some(Keyword::File)
    } else if is_word(word, b"zero") {
        Some(Keyword::Zero)
    } else {
        None
    }
}

fn relating(word: &[u8]) -> Option<Keyword>
    ensures { result ≡ lookup word.now relating }
{
    if is_word(word, b"range") {
        Some(Keyword::Range)
    } else if is_word(word, b"rising") {
        Some(Keyword::Rising)
    } else if is_word(word, b"strict") {
        Some(Keyword::Strict)
    } else if is_word(word, b"injective") {
        Some(Keyword::Injective)
    } else if is_word(word, b"sorted") {
        Some(Keyword::Sorted)
    } else if is_word(word, b"below") {
        Some(Keyword::Below)
    } else if is_word(word, b"upto") {
        Some(Keyword::Upto)
    } else if is_word(word, b"diagonal") {
        Some(Keyword::Diagonal)
    } else if is_word(word, b"before") {
        Some(Keyword::Before)
    } else {
        None
    }
}

fn nesting(word: &[u8]) -> Option<Keyword>
    ensures { result ≡ lookup word.now nesting }
{
    if is_word(word, b"of") {
        Some(Keyword::Of)
    } else if is_word(word, b"by") {
        Some(Keyword::By)
    } else if is_word(word, b"loop") {
        Some(Keyword::Loop)
    } else if is_word(word, b"for") {
        Some(Keyword::For)
    } else if is_word(word, b"in") {
        Some(Keyword::In)
    } else if is_word(word, b"when") {
        Some(Keyword::When)
    } else if is_word(word, b"set") {
        Some(Keyword::Set)
    } else if is_word(word, b"end") {
        Some(Keyword::End)
    } else {
        None
    }
}

fn keeping(word: &[u8]) -> Option<Keyword>
    ensures { result ≡ lookup word.now keeping }
{
    if is_word(word, b"local") {
        Some(Keyword::Local)
    } else if is_word(word, b"min") {
        Some(Keyword::Min)
    } else if is_word(word, b"max") {
        Some(Keyword::Max)
    } else {
        None
    }
}

fn unused(word: &[u8]) -> Option<Keyword>
    ensures { result ≡ lookup word.now unused }
{
    if is_word(word, b"down") {
        Some(Keyword::Down)
    } else if is_word(word, b"block") {
        Some(Keyword::Block)
    } else {
        None
    }
}

fn keyword(word: &[u8]) -> Option<Keyword>
    ensures { result ≡ keyword word.now }
{
    if let Some(found) = declaring(word) {
        return Some(found);
    }
    if let Some(found) = relating(word) {
        return Some(found);
    }
    if let Some(found) = nesting(word) {
        return Some(found);
    }
    if let Some(found) = keeping(word) {
        return Some(found);
    }
    unused(word)
}

#[tactic(auto, using(crate::proofs::WordLaws::capped_number))]
fn number(word: &[u8]) -> Option<Token>
    ensures { result ≡ number (value_of word.now) }
{
    let value = natural(word)?;
    Some(Token::Number(Natural::of(value)?))
}

fn digits(word: &[u8]) -> Option<Token>
    ensures { result ≡ digits_token word.now }
{
    if is_word(word, b"0") {
        Some(Token::Zero)
    } else if is_word(word, b"1") {
        Some(Token::One)
    } else if word.len() <= 19 {
        number(word)
    } else {
        None
    }
}

/// The name of up to 16 bytes that begins with a letter. It may be a reserved word.
fn name_form(word: &[u8]) -> Option<Name>
    ensures { result ≡ name_form word.now }
{
    match word {
        [] => None,
        [first, ..] => {
            if is_letter(*first) {
                Name::of(word)
            } else {
                None
            }
        }
    }
}

fn letters(word: &[u8]) -> Option<Token>
    ensures { result ≡ letters_token word.now }
{
    if is_word(word, b"n") {
        Some(Token::N)
    } else if is_word(word, b"nnz") {
        Some(Token::Nnz)
    } else {
        match keyword(word) {
            Some(found) => Some(Token::Word(found)),
            None => Some(Token::Name(name_form(word)?)),
        }
    }
}

/// What a longest run of letters, digits and `_` is.
pub fn word_token(word: &[u8]) -> Option<Token>
    ensures { result ≡ word_token word.now }
{
    match word {
        [] => None,
        [first, ..] => {
            if is_digit(*first) {
                digits(word)
            } else {
                letters(word)
            }
        }
    }
}

fn as_name(token: Token) -> Option<Name>
    ensures { result ≡ as_name token }
{
    match token {
        Token::Name(name) => Some(name),
        _ => None,
    }
}

/// Two words with a point between them.
pub fn dotted(matrix: &[u8], part: &[u8]) -> Option<Token>
    ensures { result ≡ dotted matrix.now part.now }
{
    let matrix = as_name(word_token(matrix)?)?;
    let part = name_form(part)?;
    Some(Token::Dotted(matrix, part))
}
