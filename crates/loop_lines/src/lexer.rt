// The words and signs of a line.
ghost use Rattle.std.specs.Prelude.{◌≡◌, ◌<◌, length, IfSome};
ghost use Rattle.std.specs.Option.{option_map};
ghost use Rattle.loop_lines.specs.Reading.{Gives};
ghost use Rattle.loop_lines.specs.Tokens.{sign, line_tokens};
ghost use Rattle.loop_lines.specs.TokenReading.{front_run, after_run, starts_run, starts_with, tail, run_at, point_at, equals_at, below_at, mark_at, token_at};

use crate::refusal::LineRefusal;
use crate::token::Token;
use crate::word::{dotted, is_name_byte, word_token};
use std::alloc::Global;
use text_base::words::skip_blanks;

/// The longest run of letters, digits and `_` at the front, and the bytes after it.
fn split_run(line: &[u8]) -> (&[u8], &[u8])
    ensures run { result.0.now ≡ front_run line.now }
    ensures after { result.1.now ≡ after_run line.now }
{
    for (at, byte) in line.iter().enumerate() {
        if !is_name_byte(*byte) {
            return (&line[..at], &line[at..]);
        }
    }
    (line, &[])
}

fn starts_run(line: &[u8]) -> bool
    ensures { result ≡ starts_run line.now }
{
    match line {
        [] => false,
        [byte, ..] => is_name_byte(*byte),
    }
}

fn starts_with(byte: u8, line: &[u8]) -> bool
    ensures { result ≡ starts_with byte line.now }
{
    match line {
        [] => false,
        [first, ..] => *first == byte,
    }
}

fn tail(line: &[u8]) -> &[u8]
    ensures { result.now ≡ tail line.now }
{
    match line {
        [] => line,
        [_, rest @ ..] => rest,
    }
}

/// A run, or a name and a word with a point between them.
fn run_at<'a>(run: &[u8], rest: &'a [u8]) -> Option<(Token, &'a [u8])>
    ensures { option_map (λ x. (x.0, x.1.now)) result ≡ run_at run.now rest.now }
{
    if starts_with(b'.', rest) && starts_run(tail(rest)) {
        let (part, after) = split_run(tail(rest));
        Some((dotted(run, part)?, after))
    } else {
        Some((word_token(run)?, rest))
    }
}

fn sign(byte: u8) -> Option<Token>
    ensures { result ≡ sign byte }
{
    match byte {
        b'[' => Some(Token::Open),
        b']' => Some(Token::Close),
        b'(' => Some(Token::Left),
        b')' => Some(Token::Right),
        b',' => Some(Token::Comma),
        b'+' => Some(Token::Plus),
        b'-' => Some(Token::Minus),
        b'*' => Some(Token::Times),
        b'/' => Some(Token::Over),
        _ => None,
    }
}

fn point_at(rest: &[u8]) -> Option<(Token, &[u8])>
    ensures { option_map (λ x. (x.0, x.1.now)) result ≡ point_at rest.now }
{
    if starts_with(b'.', rest) {
        Some((Token::To, tail(rest)))
    } else {
        None
    }
}

fn equals_at(rest: &[u8]) -> Option<(Token, &[u8])>
    ensures { option_map (λ x. (x.0, x.1.now)) result ≡ equals_at rest.now }
{
    if starts_with(b'=', rest) {
        Some((Token::Equal, tail(rest)))
    } else {
        Some((Token::Assign, rest))
    }
}

fn below_at(rest: &[u8]) -> Option<(Token, &[u8])>
    ensures { option_map (λ x. (x.0, x.1.now)) result ≡ below_at rest.now }
{
    if starts_with(b'=', rest) {
        Some((Token::AtMost, tail(rest)))
    } else {
        Some((Token::Less, rest))
    }
}

fn mark_at(byte: u8, rest: &[u8]) -> Option<(Token, &[u8])>
    ensures { option_map (λ x. (x.0, x.1.now)) result ≡ mark_at byte rest.now }
{
    if byte == b'.' {
        point_at(rest)
    } else if byte == b'=' {
        equals_at(rest)
    } else if byte == b'<' {
        below_at(rest)
    } else {
        Some((sign(byte)?, rest))
    }
}

/// The word or sign at the front, where no blank is, and the bytes after it.
fn token_at(line: &[u8]) -> Option<(Token, &[u8])>
    ensures { option_map (λ x. (x.0, x.1.now)) result ≡ token_at line.now }
{
    match line {
        [] => None,
        [byte, rest @ ..] => {
            if is_name_byte(*byte) {
                let (run, after) = split_run(line);
                run_at(run, after)
            } else {
                mark_at(*byte, rest)
            }
        }
    }
}

/// The words and signs of a line, which is handed in without its end.
pub fn read_tokens(alloc: Global, line: &[u8]) -> Result<Vec<Token>, LineRefusal>
    ensures { Gives (λ v. v.items) result (line_tokens line.now) }
{
    let mut found = Vec::new(alloc);
    let mut rest = skip_blanks(line);
    while !rest.is_empty() {
        let Some((token, after)) = token_at(rest) else {
            return Err(LineRefusal::Text);
        };
        found.push(token)?;
        rest = skip_blanks(after);
    }
    Ok(found)
}
