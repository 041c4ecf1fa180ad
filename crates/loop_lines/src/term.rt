// Reads a term.
ghost use Rattle.std.specs.Prelude.{◌≡◌, ◌<◌, ◌^◌};
ghost use Rattle.std.specs.Option.{option_map};
ghost use Rattle.loop_lines.specs.Reading.{Gives, array_at, open_at, entry_at, numeral_at, negated_at, shifted_at, close_at, closed_at, constant, zero_at, plain_at, term_at};
ghost use Rattle.loop_lines.specs.LineReading.{bound_at};

use crate::refusal::LineRefusal;
use crate::token::Token;
use crate::tree::{ArrayName, NamedAtom, NamedTerm};
use sqlite_items::Boxed;
use std::alloc::Global;

fn numeral(tokens: &[Token]) -> Result<(i64, &[Token]), LineRefusal>
    ensures { Gives (λ x. (x.0, x.1.now)) result (numeral_at tokens.now) }
{
    match tokens {
        [Token::Zero, rest @ ..] => Ok((0, rest)),
        [Token::One, rest @ ..] => Ok((1, rest)),
        [Token::Number(n), rest @ ..] => Ok((n.word(), rest)),
        _ => Err(LineRefusal::Text),
    }
}

fn negated(tokens: &[Token]) -> Result<(i64, &[Token]), LineRefusal>
    ensures { Gives (λ x. (x.0, x.1.now)) result (negated_at tokens.now) }
{
    match tokens {
        [Token::Zero, rest @ ..] => Ok((0, rest)),
        [Token::One, rest @ ..] => Ok((-1, rest)),
        [Token::Number(n), rest @ ..] => Ok((n.negated(), rest)),
        _ => Err(LineRefusal::Text),
    }
}

/// The array that is named at the front, and the rest.
pub fn array_name(tokens: &[Token]) -> Option<(ArrayName, &[Token])>
    ensures { option_map (λ x. (x.0, x.1.now)) result ≡ array_at tokens.now }
{
    match tokens {
        [Token::Name(name), rest @ ..] => Some((ArrayName::Own(name.copy()), rest)),
        [Token::Dotted(matrix, part), rest @ ..] => {
            Some((ArrayName::Dotted(matrix.copy(), part.copy()), rest))
        }
        _ => None,
    }
}

/// The tokens after `[`.
pub fn after_open(tokens: &[Token]) -> Option<&[Token]>
    ensures { option_map (λ x. x.now) result ≡ open_at tokens.now }
{
    match tokens {
        [Token::Open, rest @ ..] => Some(rest),
        _ => None,
    }
}

/// The tokens after `]`.
pub fn close(tokens: &[Token]) -> Result<&[Token], LineRefusal>
    ensures { Gives (λ x. x.now) result (close_at tokens.now) }
{
    match tokens {
        [Token::Close, rest @ ..] => Ok(rest),
        _ => Err(LineRefusal::Text),
    }
}

/// The atom with the number that is added or taken away after it.
pub fn shifted(atom: NamedAtom, tokens: &[Token]) -> Result<(NamedTerm, &[Token]), LineRefusal>
    ensures { Gives (λ x. (x.0, x.1.now)) result (shifted_at atom tokens.now) }
{
    match tokens {
        [Token::Plus, rest @ ..] => {
            let (plus, rest) = numeral(rest)?;
            Ok((NamedTerm { atom, plus }, rest))
        }
        [Token::Minus, rest @ ..] => {
            let (plus, rest) = negated(rest)?;
            Ok((NamedTerm { atom, plus }, rest))
        }
        rest => Ok((NamedTerm { atom, plus: 0 }, rest)),
    }
}

pub fn constant(plus: i64) -> NamedTerm
    ensures { result ≡ constant plus }
{
    NamedTerm {
        atom: NamedAtom::Zero,
        plus,
    }
}

/// The digit 0 stands for itself, or before a number that is taken away.
pub fn after_zero(tokens: &[Token]) -> Result<(NamedTerm, &[Token]), LineRefusal>
    ensures { Gives (λ x. (x.0, x.1.now)) result (zero_at tokens.now) }
{
    match tokens {
        [Token::Minus, rest @ ..] => {
            let (plus, rest) = negated(rest)?;
            Ok((constant(plus), rest))
        }
        rest => Ok((constant(0), rest)),
    }
}

/// The array that is named at the front, before a bracket, and the tokens in the bracket and after it.
pub fn entry(tokens: &[Token]) -> Option<(ArrayName, &[Token])>
    ensures { option_map (λ x. (x.0, x.1.now)) result ≡ entry_at tokens.now }
{
    let (array, rest) = array_name(tokens)?;
    Some((array, after_open(rest)?))
}

/// The bracket's end after its term, and the shift.
fn closed(
    alloc: Global,
    array: ArrayName,
    inner: NamedTerm,
    tokens: &[Token],
) -> Result<(NamedTerm, &[Token]), LineRefusal>
    ensures { Gives (λ x. (x.0, x.1.now)) result (closed_at array inner tokens.now) }
{
    let rest = close(tokens)?;
    let inner = Boxed::new(alloc, inner)?;
    shifted(NamedAtom::At(array, inner), rest)
}

/// A number, 0 less a number, or a size with what is added or taken away.
pub fn bound(tokens: &[Token]) -> Result<(NamedTerm, &[Token]), LineRefusal>
    ensures { Gives (λ x. (x.0, x.1.now)) result (bound_at tokens.now) }
{
    match tokens {
        [Token::Zero, rest @ ..] => after_zero(rest),
        [Token::One, rest @ ..] => Ok((constant(1), rest)),
        [Token::Number(n), rest @ ..] => Ok((constant(n.word()), rest)),
        [Token::N, rest @ ..] => shifted(NamedAtom::N, rest),
        [Token::Nnz, rest @ ..] => shifted(NamedAtom::Nnz, rest),
        _ => Err(LineRefusal::Text),
    }
}

/// A term without a bracket at the front, and the rest.
fn plain(tokens: &[Token]) -> Result<(NamedTerm, &[Token]), LineRefusal>
    ensures { Gives (λ x. (x.0, x.1.now)) result (plain_at tokens.now) }
{
    match tokens {
        [Token::Name(name), rest @ ..] => shifted(NamedAtom::Var(name.copy()), rest),
        _ => bound(tokens),
    }
}

/// A term at the front, whose brackets stand in one another less than `depth` times, and the rest.
pub fn read_term(
    alloc: Global,
    depth: usize,
    tokens: &[Token],
) -> Result<(NamedTerm, &[Token]), LineRefusal>
    ensures { Gives (λ x. (x.0, x.1.now)) result (term_at depth tokens.now) }
{
    if depth == 0 {
        return Err(LineRefusal::Text);
    }
    match entry(tokens) {
        None => plain(tokens),
        Some((array, rest)) => {
            let (inner, rest) = read_term(alloc, depth - 1, rest)?;
            closed(alloc, array, inner, rest)
        }
    }
}
