// Single words and signs at the front of a line's rest.
ghost use Rattle.std.specs.Prelude.{◌≡◌};
ghost use Rattle.loop_lines.specs.Reading.{Gives, array_at};
ghost use Rattle.loop_lines.specs.LineReading.{end_at, name_at, in_at, of_at, by_at, to_at, assign_at, rel_at, form_at, one_at, longer_at, size_at, source_at};

use crate::refusal::LineRefusal;
use crate::term::array_name;
use crate::token::{Keyword, Token};
use crate::tree::ArrayName;
use loop_core::decl::{Form, Size, Source};
use loop_core::name::Name;
use loop_core::nest::Rel;

/// Nothing is left.
pub fn end(tokens: &[Token]) -> Result<(), LineRefusal>
    ensures { Gives (λ x. x) result (end_at tokens.now) }
{
    match tokens {
        [] => Ok(()),
        _ => Err(LineRefusal::Text),
    }
}

/// A name and the rest.
pub fn name(tokens: &[Token]) -> Result<(Name, &[Token]), LineRefusal>
    ensures { Gives (λ x. (x.0, x.1.now)) result (name_at tokens.now) }
{
    match tokens {
        [Token::Name(name), rest @ ..] => Ok((name.copy(), rest)),
        _ => Err(LineRefusal::Text),
    }
}

/// An array's name and the rest.
pub fn array(tokens: &[Token]) -> Result<(ArrayName, &[Token]), LineRefusal>
    ensures { Gives (λ x. (x.0, x.1.now)) result (array_at tokens.now) }
{
    match array_name(tokens) {
        Some((array, rest)) => Ok((array, rest)),
        None => Err(LineRefusal::Text),
    }
}

/// The rest after `in`.
pub fn after_in(tokens: &[Token]) -> Result<&[Token], LineRefusal>
    ensures { Gives (λ x. x.now) result (in_at tokens.now) }
{
    match tokens {
        [Token::Word(Keyword::In), rest @ ..] => Ok(rest),
        _ => Err(LineRefusal::Text),
    }
}

/// The rest after `of`.
pub fn after_of(tokens: &[Token]) -> Result<&[Token], LineRefusal>
    ensures { Gives (λ x. x.now) result (of_at tokens.now) }
{
    match tokens {
        [Token::Word(Keyword::Of), rest @ ..] => Ok(rest),
        _ => Err(LineRefusal::Text),
    }
}

/// The rest after `by`.
pub fn after_by(tokens: &[Token]) -> Result<&[Token], LineRefusal>
    ensures { Gives (λ x. x.now) result (by_at tokens.now) }
{
    match tokens {
        [Token::Word(Keyword::By), rest @ ..] => Ok(rest),
        _ => Err(LineRefusal::Text),
    }
}

/// The rest after `..`.
pub fn after_to(tokens: &[Token]) -> Result<&[Token], LineRefusal>
    ensures { Gives (λ x. x.now) result (to_at tokens.now) }
{
    match tokens {
        [Token::To, rest @ ..] => Ok(rest),
        _ => Err(LineRefusal::Text),
    }
}

/// The rest after `=`.
pub fn after_assign(tokens: &[Token]) -> Result<&[Token], LineRefusal>
    ensures { Gives (λ x. x.now) result (assign_at tokens.now) }
{
    match tokens {
        [Token::Assign, rest @ ..] => Ok(rest),
        _ => Err(LineRefusal::Text),
    }
}

/// What a guard asks of its terms, and the rest.
pub fn rel(tokens: &[Token]) -> Result<(Rel, &[Token]), LineRefusal>
    ensures { Gives (λ x. (x.0, x.1.now)) result (rel_at tokens.now) }
{
    match tokens {
        [Token::Equal, rest @ ..] => Ok((Rel::Equal, rest)),
        [Token::Less, rest @ ..] => Ok((Rel::Less, rest)),
        [Token::AtMost, rest @ ..] => Ok((Rel::LessEqual, rest)),
        _ => Err(LineRefusal::Text),
    }
}

/// The form of a matrix, and the rest.
pub fn form(tokens: &[Token]) -> Result<(Form, &[Token]), LineRefusal>
    ensures { Gives (λ x. (x.0, x.1.now)) result (form_at tokens.now) }
{
    match tokens {
        [Token::Word(Keyword::Csr), rest @ ..] => Ok((Form::Csr, rest)),
        [Token::Word(Keyword::Csc), rest @ ..] => Ok((Form::Csc, rest)),
        _ => Err(LineRefusal::Text),
    }
}

fn one(tokens: &[Token]) -> Result<(Size, &[Token]), LineRefusal>
    ensures { Gives (λ x. (x.0, x.1.now)) result (one_at tokens.now) }
{
    match tokens {
        [Token::One, rest @ ..] => Ok((Size::NPlusOne, rest)),
        _ => Err(LineRefusal::Text),
    }
}

fn longer(tokens: &[Token]) -> Result<(Size, &[Token]), LineRefusal>
    ensures { Gives (λ x. (x.0, x.1.now)) result (longer_at tokens.now) }
{
    match tokens {
        [Token::Plus, rest @ ..] => one(rest),
        rest => Ok((Size::N, rest)),
    }
}

/// The size of an array, and the rest.
pub fn size(tokens: &[Token]) -> Result<(Size, &[Token]), LineRefusal>
    ensures { Gives (λ x. (x.0, x.1.now)) result (size_at tokens.now) }
{
    match tokens {
        [Token::N, rest @ ..] => longer(rest),
        [Token::Nnz, rest @ ..] => Ok((Size::Nnz, rest)),
        _ => Err(LineRefusal::Text),
    }
}

/// Where a data array begins, and the rest.
pub fn source(tokens: &[Token]) -> Result<(Source, &[Token]), LineRefusal>
    ensures { Gives (λ x. (x.0, x.1.now)) result (source_at tokens.now) }
{
    match tokens {
        [Token::Word(Keyword::File), rest @ ..] => Ok((Source::File, rest)),
        [Token::Word(Keyword::Zero), rest @ ..] => Ok((Source::Zeros, rest)),
        _ => Err(LineRefusal::Text),
    }
}
