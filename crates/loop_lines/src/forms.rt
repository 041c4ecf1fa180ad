// Reads a line of declarations, of properties or of the loop from its words and signs.
ghost use Rattle.std.specs.Prelude.{◌≡◌};
ghost use Rattle.loop_lines.specs.Reading.{Gives};
ghost use Rattle.loop_lines.specs.LineReading.{matrix_at, index_at, last_source_at, vector_at, local_at, alone_at, pair_at, by_pair_at, diagonal_at, last_bound_at, range_at, loop_at, free_term_at, last_term_at, terms_at, for_at, when_at, value_at, kept_at, keep_at, assigned_at, put_at, set_at, last_at, prop_at, form_line_at, line_at};

use crate::expr::read_expr;
use crate::line::{Line, NamedProp};
use crate::refusal::LineRefusal;
use crate::sign::{
    after_assign, after_by, after_in, after_of, after_to, array, end, form, name, rel, size, source,
};
use crate::term::{bound, close, entry, read_term};
use crate::token::{Keyword, Token};
use crate::tree::{ArrayName, NamedExpr, NamedTerm};
use loop_core::decl::Source;
use std::alloc::Global;

fn matrix(tokens: &[Token]) -> Result<Line, LineRefusal>
    ensures { Gives (λ x. x) result (matrix_at tokens.now) }
{
    let (name, rest) = name(tokens)?;
    let (form, rest) = form(rest)?;
    end(rest)?;
    Ok(Line::Matrix(name, form))
}

fn index(tokens: &[Token]) -> Result<Line, LineRefusal>
    ensures { Gives (λ x. x) result (index_at tokens.now) }
{
    let (name, rest) = name(tokens)?;
    let (size, rest) = size(rest)?;
    end(rest)?;
    Ok(Line::Index(name, size))
}

fn last_source(tokens: &[Token]) -> Result<Source, LineRefusal>
    ensures { Gives (λ x. x) result (last_source_at tokens.now) }
{
    let (source, rest) = source(tokens)?;
    end(rest)?;
    Ok(source)
}

fn vector(tokens: &[Token]) -> Result<Line, LineRefusal>
    ensures { Gives (λ x. x) result (vector_at tokens.now) }
{
    let (name, rest) = name(tokens)?;
    let (size, rest) = size(rest)?;
    let source = last_source(rest)?;
    Ok(Line::Vector(name, size, source))
}

fn local(tokens: &[Token]) -> Result<Line, LineRefusal>
    ensures { Gives (λ x. x) result (local_at tokens.now) }
{
    let (name, rest) = name(tokens)?;
    end(rest)?;
    Ok(Line::Local(name))
}

fn alone(tokens: &[Token]) -> Result<ArrayName, LineRefusal>
    ensures { Gives (λ x. x) result (alone_at tokens.now) }
{
    let (array, rest) = array(tokens)?;
    end(rest)?;
    Ok(array)
}

fn pair(tokens: &[Token]) -> Result<(ArrayName, ArrayName), LineRefusal>
    ensures { Gives (λ x. x) result (pair_at tokens.now) }
{
    let (first, rest) = array(tokens)?;
    let second = alone(rest)?;
    Ok((first, second))
}

fn by_pair(tokens: &[Token]) -> Result<(ArrayName, ArrayName), LineRefusal>
    ensures { Gives (λ x. x) result (by_pair_at tokens.now) }
{
    let (first, rest) = array(tokens)?;
    let rest = after_by(rest)?;
    let second = alone(rest)?;
    Ok((first, second))
}

fn diagonal(tokens: &[Token]) -> Result<NamedProp, LineRefusal>
    ensures { Gives (λ x. x) result (diagonal_at tokens.now) }
{
    let (places, rest) = array(tokens)?;
    let rest = after_of(rest)?;
    let (entries, by) = by_pair(rest)?;
    Ok(NamedProp::Diagonal(places, entries, by))
}

fn last_bound(tokens: &[Token]) -> Result<NamedTerm, LineRefusal>
    ensures { Gives (λ x. x) result (last_bound_at tokens.now) }
{
    let (bound, rest) = bound(tokens)?;
    end(rest)?;
    Ok(bound)
}

fn range(tokens: &[Token]) -> Result<NamedProp, LineRefusal>
    ensures { Gives (λ x. x) result (range_at tokens.now) }
{
    let (array, rest) = array(tokens)?;
    let (lo, rest) = bound(rest)?;
    let hi = last_bound(rest)?;
    Ok(NamedProp::Range(array, lo, hi))
}

fn outer(tokens: &[Token]) -> Result<Line, LineRefusal>
    ensures { Gives (λ x. x) result (loop_at tokens.now) }
{
    let (name, rest) = name(tokens)?;
    end(rest)?;
    Ok(Line::Loop(name))
}

fn free_term(alloc: Global, tokens: &[Token]) -> Result<(NamedTerm, &[Token]), LineRefusal>
    ensures { Gives (λ x. (x.0, x.1.now)) result (free_term_at tokens.now) }
{
    read_term(alloc, tokens.len(), tokens)
}

fn last_term(alloc: Global, tokens: &[Token]) -> Result<NamedTerm, LineRefusal>
    ensures { Gives (λ x. x) result (last_term_at tokens.now) }
{
    let (term, rest) = free_term(alloc, tokens)?;
    end(rest)?;
    Ok(term)
}

fn terms(alloc: Global, tokens: &[Token]) -> Result<(NamedTerm, NamedTerm), LineRefusal>
    ensures { Gives (λ x. x) result (terms_at tokens.now) }
{
    let (lo, rest) = free_term(alloc, tokens)?;
    let rest = after_to(rest)?;
    let hi = last_term(alloc, rest)?;
    Ok((lo, hi))
}

fn inner(alloc: Global, tokens: &[Token]) -> Result<Line, LineRefusal>
    ensures { Gives (λ x. x) result (for_at tokens.now) }
{
    let (name, rest) = name(tokens)?;
    let rest = after_in(rest)?;
    let (lo, hi) = terms(alloc, rest)?;
    Ok(Line::For(name, lo, hi))
}

fn guard(alloc: Global, tokens: &[Token]) -> Result<Line, LineRefusal>
    ensures { Gives (λ x. x) result (when_at tokens.now) }
{
    let (left, rest) = free_term(alloc, tokens)?;
    let (rel, rest) = rel(rest)?;
    let right = last_term(alloc, rest)?;
    Ok(Line::When(rel, left, right))
}

fn value(alloc: Global, tokens: &[Token]) -> Result<NamedExpr, LineRefusal>
    ensures { Gives (λ x. x) result (value_at tokens.now) }
{
    read_expr(alloc, tokens)
}

fn kept(alloc: Global, tokens: &[Token]) -> Result<NamedExpr, LineRefusal>
    ensures { Gives (λ x. x) result (kept_at tokens.now) }
{
    let rest = after_assign(tokens)?;
    value(alloc, rest)
}

fn keep(alloc: Global, tokens: &[Token]) -> Result<Line, LineRefusal>
    ensures { Gives (λ x. x) result (keep_at tokens.now) }
{
    let (name, rest) = name(tokens)?;
    let value = kept(alloc, rest)?;
    Ok(Line::Keep(name, value))
}

fn assigned(alloc: Global, tokens: &[Token]) -> Result<NamedExpr, LineRefusal>
    ensures { Gives (λ x. x) result (assigned_at tokens.now) }
{
    let rest = close(tokens)?;
    kept(alloc, rest)
}

fn put(alloc: Global, array: ArrayName, tokens: &[Token]) -> Result<Line, LineRefusal>
    ensures { Gives (λ x. x) result (put_at array tokens.now) }
{
    let (at, rest) = free_term(alloc, tokens)?;
    let value = assigned(alloc, rest)?;
    Ok(Line::Set(array, at, value))
}

fn statement(alloc: Global, tokens: &[Token]) -> Result<Line, LineRefusal>
    ensures { Gives (λ x. x) result (set_at tokens.now) }
{
    match entry(tokens) {
        Some((array, rest)) => put(alloc, array, rest),
        None => keep(alloc, tokens),
    }
}

fn last(tokens: &[Token]) -> Result<Line, LineRefusal>
    ensures { Gives (λ x. x) result (last_at tokens.now) }
{
    end(tokens)?;
    Ok(Line::End)
}

fn prop(word: Keyword, tokens: &[Token]) -> Result<NamedProp, LineRefusal>
    ensures { Gives (λ x. x) result (prop_at word tokens.now) }
{
    match word {
        Keyword::Range => range(tokens),
        Keyword::Rising => Ok(NamedProp::Rising(alone(tokens)?)),
        Keyword::Strict => Ok(NamedProp::Strict(alone(tokens)?)),
        Keyword::Injective => Ok(NamedProp::Injective(alone(tokens)?)),
        Keyword::Sorted => {
            let (array, by) = by_pair(tokens)?;
            Ok(NamedProp::Sorted(array, by))
        }
        Keyword::Below => {
            let (array, by) = by_pair(tokens)?;
            Ok(NamedProp::Below(array, by))
        }
        Keyword::Upto => {
            let (array, by) = by_pair(tokens)?;
            Ok(NamedProp::Upto(array, by))
        }
        Keyword::Diagonal => diagonal(tokens),
        Keyword::Before => {
            let (first, second) = pair(tokens)?;
            Ok(NamedProp::Before(first, second))
        }
        _ => Err(LineRefusal::Text),
    }
}

fn form_line(alloc: Global, word: Keyword, tokens: &[Token]) -> Result<Line, LineRefusal>
    ensures { Gives (λ x. x) result (form_line_at word tokens.now) }
{
    match word {
        Keyword::Matrix => matrix(tokens),
        Keyword::Index => index(tokens),
        Keyword::Vector => vector(tokens),
        Keyword::Local => local(tokens),
        Keyword::Loop => outer(tokens),
        Keyword::For => inner(alloc, tokens),
        Keyword::When => guard(alloc, tokens),
        Keyword::Set => statement(alloc, tokens),
        Keyword::End => last(tokens),
        _ => Ok(Line::Prop(prop(word, tokens)?)),
    }
}

/// The line that words and signs are, of the form that the first word names.
pub fn read_line(alloc: Global, tokens: &[Token]) -> Result<Line, LineRefusal>
    ensures { Gives (λ x. x) result (line_at tokens.now) }
{
    match tokens {
        [Token::Word(word), rest @ ..] => form_line(alloc, *word, rest),
        _ => Err(LineRefusal::Text),
    }
}
