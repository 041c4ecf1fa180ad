// Reads an expression.
ghost use Rattle.std.specs.Prelude.{◌≡◌, ◌<◌, ◌*◌, length, IfOk};
ghost use Rattle.loop_lines.specs.Reading.{Gives};
ghost use Rattle.loop_lines.specs.ExprReading.{all_read, element_at, right_at, named_at, left_at, comma_at, factor_at, both_at, factors_at, product_at, products_at, sum_at, whole_at};
ghost use Rattle.loop_lines.specs.declared.tree.NamedExpr.TheVariants as exprs;

use crate::refusal::LineRefusal;
use crate::term::{close, read_term};
use crate::token::{Keyword, Token};
use crate::tree::{ArrayName, NamedExpr};
use loop_core::name::Name;
use loop_core::nest::Op;
use sqlite_items::Boxed;
use std::alloc::{AllocError, Global};

fn join(alloc: Global, op: Op, left: NamedExpr, right: NamedExpr) -> Result<NamedExpr, AllocError>
    ensures { IfOk result (λ e. e ≡ exprs.Op op left right) }
{
    let left = Boxed::new(alloc, left)?;
    let right = Boxed::new(alloc, right)?;
    Ok(NamedExpr::Op(op, left, right))
}

fn element(
    alloc: Global,
    depth: usize,
    array: ArrayName,
    tokens: &[Token],
) -> Result<(NamedExpr, &[Token]), LineRefusal>
    ensures { Gives (λ x. (x.0, x.1.now)) result (element_at depth array tokens.now) }
{
    match tokens {
        [Token::Open, rest @ ..] => {
            let (at, rest) = read_term(alloc, depth, rest)?;
            let rest = close(rest)?;
            Ok((NamedExpr::Read(array, at), rest))
        }
        _ => Err(LineRefusal::Text),
    }
}

fn right(inner: NamedExpr, tokens: &[Token]) -> Result<(NamedExpr, &[Token]), LineRefusal>
    ensures { Gives (λ x. (x.0, x.1.now)) result (right_at inner tokens.now) }
{
    match tokens {
        [Token::Right, rest @ ..] => Ok((inner, rest)),
        _ => Err(LineRefusal::Text),
    }
}

/// The element of an array before a bracket, and a local elsewhere.
fn named(
    alloc: Global,
    depth: usize,
    name: Name,
    tokens: &[Token],
) -> Result<(NamedExpr, &[Token]), LineRefusal>
    ensures { Gives (λ x. (x.0, x.1.now)) result (named_at depth name tokens.now) }
{
    match tokens {
        [Token::Open, ..] => element(alloc, depth, ArrayName::Own(name), tokens),
        rest => Ok((NamedExpr::Local(name), rest)),
    }
}

fn after_left(tokens: &[Token]) -> Result<&[Token], LineRefusal>
    ensures { Gives (λ x. x.now) result (left_at tokens.now) }
{
    match tokens {
        [Token::Left, rest @ ..] => Ok(rest),
        _ => Err(LineRefusal::Text),
    }
}

fn after_comma(tokens: &[Token]) -> Result<&[Token], LineRefusal>
    ensures { Gives (λ x. x.now) result (comma_at tokens.now) }
{
    match tokens {
        [Token::Comma, rest @ ..] => Ok(rest),
        _ => Err(LineRefusal::Text),
    }
}

#[cycle(expr)]
fn factor(
    alloc: Global,
    fuel: usize,
    tokens: &[Token],
) -> Result<(NamedExpr, &[Token]), LineRefusal>
    ensures { Gives (λ x. (x.0, x.1.now)) result (factor_at fuel tokens.now) }
{
    if fuel == 0 {
        return Err(LineRefusal::Text);
    }
    match tokens {
        [Token::Zero, rest @ ..] => Ok((NamedExpr::Lit(0), rest)),
        [Token::One, rest @ ..] => Ok((NamedExpr::Lit(1), rest)),
        [Token::Number(n), rest @ ..] => Ok((NamedExpr::Lit(n.word()), rest)),
        [Token::Name(name), rest @ ..] => named(alloc, fuel - 1, name.copy(), rest),
        [Token::Dotted(matrix, part), rest @ ..] => {
            let array = ArrayName::Dotted(matrix.copy(), part.copy());
            element(alloc, fuel - 1, array, rest)
        }
        [Token::Left, rest @ ..] => {
            let (inner, rest) = read_sum(alloc, fuel - 1, rest)?;
            right(inner, rest)
        }
        [Token::Word(Keyword::Min), rest @ ..] => both(alloc, fuel - 1, Op::Min, rest),
        [Token::Word(Keyword::Max), rest @ ..] => both(alloc, fuel - 1, Op::Max, rest),
        _ => Err(LineRefusal::Text),
    }
}

/// Two sums in parentheses with a comma between them, joined by the operation.
#[cycle(expr)]
fn both(
    alloc: Global,
    fuel: usize,
    op: Op,
    tokens: &[Token],
) -> Result<(NamedExpr, &[Token]), LineRefusal>
    ensures { Gives (λ x. (x.0, x.1.now)) result (both_at fuel op tokens.now) }
{
    if fuel == 0 {
        return Err(LineRefusal::Text);
    }
    let rest = after_left(tokens)?;
    let (first, rest) = read_sum(alloc, fuel - 1, rest)?;
    let rest = after_comma(rest)?;
    let (second, rest) = read_sum(alloc, fuel - 1, rest)?;
    let whole = join(alloc, op, first, second)?;
    right(whole, rest)
}

#[cycle(expr)]
fn product(
    alloc: Global,
    fuel: usize,
    tokens: &[Token],
) -> Result<(NamedExpr, &[Token]), LineRefusal>
    ensures { Gives (λ x. (x.0, x.1.now)) result (product_at fuel tokens.now) }
{
    if fuel == 0 {
        return Err(LineRefusal::Text);
    }
    let (left, rest) = factor(alloc, fuel - 1, tokens)?;
    factors(alloc, fuel - 1, left, rest)
}

#[cycle(expr)]
fn factors(
    alloc: Global,
    fuel: usize,
    left: NamedExpr,
    tokens: &[Token],
) -> Result<(NamedExpr, &[Token]), LineRefusal>
    ensures { Gives (λ x. (x.0, x.1.now)) result (factors_at fuel left tokens.now) }
{
    if fuel == 0 {
        return Err(LineRefusal::Text);
    }
    match tokens {
        [Token::Times, rest @ ..] => {
            let (next, rest) = factor(alloc, fuel - 1, rest)?;
            let whole = join(alloc, Op::Mul, left, next)?;
            factors(alloc, fuel - 1, whole, rest)
        }
        [Token::Over, rest @ ..] => {
            let (next, rest) = factor(alloc, fuel - 1, rest)?;
            let whole = join(alloc, Op::Quot, left, next)?;
            factors(alloc, fuel - 1, whole, rest)
        }
        rest => Ok((left, rest)),
    }
}

/// A sum at the front, in at most `fuel` calls in one another, and the rest.
#[cycle(expr)]
fn read_sum(
    alloc: Global,
    fuel: usize,
    tokens: &[Token],
) -> Result<(NamedExpr, &[Token]), LineRefusal>
    ensures { Gives (λ x. (x.0, x.1.now)) result (sum_at fuel tokens.now) }
{
    if fuel == 0 {
        return Err(LineRefusal::Text);
    }
    let (left, rest) = product(alloc, fuel - 1, tokens)?;
    products(alloc, fuel - 1, left, rest)
}

#[cycle(expr)]
fn products(
    alloc: Global,
    fuel: usize,
    left: NamedExpr,
    tokens: &[Token],
) -> Result<(NamedExpr, &[Token]), LineRefusal>
    ensures { Gives (λ x. (x.0, x.1.now)) result (products_at fuel left tokens.now) }
{
    if fuel == 0 {
        return Err(LineRefusal::Text);
    }
    match tokens {
        [Token::Plus, rest @ ..] => {
            let (next, rest) = product(alloc, fuel - 1, rest)?;
            let whole = join(alloc, Op::Add, left, next)?;
            products(alloc, fuel - 1, whole, rest)
        }
        [Token::Minus, rest @ ..] => {
            let (next, rest) = product(alloc, fuel - 1, rest)?;
            let whole = join(alloc, Op::Sub, left, next)?;
            products(alloc, fuel - 1, whole, rest)
        }
        rest => Ok((left, rest)),
    }
}

fn all_read(e: NamedExpr, tokens: &[Token]) -> Result<NamedExpr, LineRefusal>
    ensures { Gives (λ x. x) result (all_read e tokens.now) }
{
    match tokens {
        [] => Ok(e),
        _ => Err(LineRefusal::Text),
    }
}

/// The expression that all of the tokens are.
pub fn read_expr(alloc: Global, tokens: &[Token]) -> Result<NamedExpr, LineRefusal>
    ensures { Gives (λ x. x) result (whole_at (3 * length tokens.now) tokens.now) }
{
    let fuel = 3 * tokens.len();
    let (e, rest) = read_sum(alloc, fuel, tokens)?;
    all_read(e, rest)
}
