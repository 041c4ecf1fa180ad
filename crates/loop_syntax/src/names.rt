// The rules on names, on each line from left to right.
ghost use Rattle.std.specs.Prelude.{◌≡◌, ◌≤◌, ◌<◌, ◌+◌, ◌^◌, None, length, IfOk};
ghost use Rattle.loop_core.specs.IsNest.{same_size};
ghost use Rattle.loop_lines.specs.Words.{either};
ghost use Rattle.loop_syntax.specs.Scope.{empty, scope_after};
ghost use Rattle.loop_syntax.specs.NameRules.{new_fault, variable_fault, local_fault, kept_fault, index_fault, sized_fault, alike_fault, data_fault, target_fault, by_fault, before_fault, term_fault, terms_fault, value_fault, prop_fault, line_fault, first_fault};

use crate::numbered::Numbered;
use crate::refusal::NameKind;
use crate::scope::{ArrayUse, Meaning, Scope};
use loop_core::decl::Size;
use loop_lines::line::{Line, NamedProp};
use loop_lines::tree::{ArrayName, NamedAtom, NamedExpr, NamedTerm};
use std::alloc::Global;
use wave_base::types::Memory;

/// The first of two faults.
fn either(first: Option<NameKind>, second: Option<NameKind>) -> Option<NameKind>
    ensures { result ≡ either first second }
{
    match first {
        Some(kind) => Some(kind),
        None => second,
    }
}

fn new_fault(meaning: Option<Meaning>) -> Option<NameKind>
    ensures { result ≡ new_fault meaning }
{
    match meaning {
        None => None,
        Some(_) => Some(NameKind::Twice),
    }
}

fn variable_fault(meaning: Option<Meaning>) -> Option<NameKind>
    ensures { result ≡ variable_fault meaning }
{
    match meaning {
        None => Some(NameKind::Unknown),
        Some(Meaning::Variable(_)) => None,
        Some(_) => Some(NameKind::WrongKind),
    }
}

fn local_fault(meaning: Option<Meaning>) -> Option<NameKind>
    ensures { result ≡ local_fault meaning }
{
    match meaning {
        None => Some(NameKind::Unknown),
        Some(Meaning::Local(_)) => None,
        Some(_) => Some(NameKind::WrongKind),
    }
}

fn kept_fault(meaning: Option<Meaning>) -> Option<NameKind>
    ensures { result ≡ kept_fault meaning }
{
    match meaning {
        Some(Meaning::Indexes(_, _)) => Some(NameKind::WrittenIndex),
        _ => local_fault(meaning),
    }
}

fn index_fault(array: ArrayUse) -> Option<NameKind>
    ensures { result ≡ index_fault array }
{
    match array {
        ArrayUse::Unknown => Some(NameKind::Unknown),
        ArrayUse::Other => Some(NameKind::WrongKind),
        ArrayUse::Indexes(_, _) => None,
        ArrayUse::Holds(_, _) => Some(NameKind::WrongKind),
    }
}

fn is_same_size(size: Size, asked: Size) -> bool
    ensures { result ≡ same_size size asked }
{
    match size {
        Size::N => asked == Size::N,
        Size::NPlusOne => asked == Size::NPlusOne,
        Size::Nnz => asked == Size::Nnz,
    }
}

fn sized_fault(asked: Size, array: ArrayUse) -> Option<NameKind>
    ensures { result ≡ sized_fault asked array }
{
    match array {
        ArrayUse::Indexes(size, _) => {
            if is_same_size(size, asked) {
                None
            } else {
                Some(NameKind::WrongKind)
            }
        }
        _ => index_fault(array),
    }
}

fn alike_fault(first: ArrayUse, second: ArrayUse) -> Option<NameKind>
    ensures { result ≡ alike_fault first second }
{
    match first {
        ArrayUse::Indexes(size, _) => sized_fault(size, second),
        _ => None,
    }
}

fn data_fault(array: ArrayUse) -> Option<NameKind>
    ensures { result ≡ data_fault array }
{
    match array {
        ArrayUse::Unknown => Some(NameKind::Unknown),
        ArrayUse::Other => Some(NameKind::WrongKind),
        ArrayUse::Indexes(_, _) => Some(NameKind::WrongKind),
        ArrayUse::Holds(_, _) => None,
    }
}

fn target_fault(array: ArrayUse) -> Option<NameKind>
    ensures { result ≡ target_fault array }
{
    match array {
        ArrayUse::Indexes(_, _) => Some(NameKind::WrittenIndex),
        _ => data_fault(array),
    }
}

/// The first fault in a term. It calls itself as deep as brackets stand in one another.
fn term_fault(scope: &Scope, term: &NamedTerm) -> Option<NameKind>
    ensures { result ≡ term_fault scope.now term.now }
{
    match &term.atom {
        NamedAtom::Var(name) => variable_fault(scope.meaning_of(name)),
        NamedAtom::At(array, inner) => {
            let own = index_fault(scope.use_of(array));
            either(own, term_fault(scope, inner.get()))
        }
        _ => None,
    }
}

fn terms_fault(scope: &Scope, first: &NamedTerm, second: &NamedTerm) -> Option<NameKind>
    ensures { result ≡ terms_fault scope.now first.now second.now }
{
    either(term_fault(scope, first), term_fault(scope, second))
}

/// The first fault in an expression. It calls itself as deep as operations stand in one another.
fn value_fault(scope: &Scope, value: &NamedExpr) -> Option<NameKind>
    ensures { result ≡ value_fault scope.now value.now }
{
    match value {
        NamedExpr::Lit(_) => None,
        NamedExpr::Read(array, at) => {
            either(data_fault(scope.use_of(array)), term_fault(scope, at))
        }
        NamedExpr::Local(name) => local_fault(scope.meaning_of(name)),
        NamedExpr::Op(_, left, right) => either(
            value_fault(scope, left.get()),
            value_fault(scope, right.get()),
        ),
    }
}

fn by_fault(scope: &Scope, array: &ArrayName, by: &ArrayName) -> Option<NameKind>
    ensures { result ≡ by_fault scope.now array.now by.now }
{
    let array = index_fault(scope.use_of(array));
    either(array, sized_fault(Size::NPlusOne, scope.use_of(by)))
}

fn before_fault(scope: &Scope, first: &ArrayName, second: &ArrayName) -> Option<NameKind>
    ensures { result ≡ before_fault scope.now first.now second.now }
{
    let first = scope.use_of(first);
    either(index_fault(first), alike_fault(first, scope.use_of(second)))
}

fn prop_fault(scope: &Scope, prop: &NamedProp) -> Option<NameKind>
    ensures { result ≡ prop_fault scope.now prop.now }
{
    match prop {
        NamedProp::Range(array, _, _) => index_fault(scope.use_of(array)),
        NamedProp::Rising(array) => index_fault(scope.use_of(array)),
        NamedProp::Strict(array) => index_fault(scope.use_of(array)),
        NamedProp::Injective(array) => index_fault(scope.use_of(array)),
        NamedProp::Sorted(array, by) => by_fault(scope, array, by),
        NamedProp::Below(array, by) => by_fault(scope, array, by),
        NamedProp::Upto(array, by) => by_fault(scope, array, by),
        NamedProp::Diagonal(places, array, by) => {
            let places = sized_fault(Size::N, scope.use_of(places));
            either(places, by_fault(scope, array, by))
        }
        NamedProp::Before(first, second) => before_fault(scope, first, second),
    }
}

/// The first rule that a line breaks.
pub fn line_fault(scope: &Scope, line: &Line) -> Option<NameKind>
    ensures { result ≡ line_fault scope.now line.now }
{
    match line {
        Line::Matrix(name, _) => new_fault(scope.meaning_of(name)),
        Line::Index(name, _) => new_fault(scope.meaning_of(name)),
        Line::Vector(name, _, _) => new_fault(scope.meaning_of(name)),
        Line::Local(name) => new_fault(scope.meaning_of(name)),
        Line::Prop(prop) => prop_fault(scope, prop),
        Line::Loop(name) => new_fault(scope.meaning_of(name)),
        Line::For(name, lo, hi) => {
            let name = new_fault(scope.meaning_of(name));
            either(name, terms_fault(scope, lo, hi))
        }
        Line::When(_, left, right) => terms_fault(scope, left, right),
        Line::Set(array, at, value) => {
            let array = target_fault(scope.use_of(array));
            let at = either(array, term_fault(scope, at));
            either(at, value_fault(scope, value))
        }
        Line::Keep(name, value) => {
            let name = kept_fault(scope.meaning_of(name));
            either(name, value_fault(scope, value))
        }
        Line::End => None,
    }
}

/// The first rule that a line breaks; where it breaks none, the scope goes past it.
fn step(scope: &mut Scope, next: &Numbered) -> Result<Option<NameKind>, Memory>
    requires { scope.old.arrays + scope.old.locals + 4 < 2 ^ 32 }
    ensures fault { IfOk result (λ fault. fault ≡ line_fault scope.old next.now.line) }
    ensures passed { IfOk result (λ fault. fault ≡ None → scope.new ≡ scope_after scope.old next.now) }
    ensures few { IfOk result (λ _. scope.new.arrays + scope.new.locals ≤ scope.old.arrays + scope.old.locals + 4) }
{
    if let Some(kind) = line_fault(scope, &next.line) {
        return Ok(Some(kind));
    }
    scope.pass(next.number, &next.line)?;
    Ok(None)
}

/// The first of the lines that breaks a rule on names, and which rule.
pub fn first_fault(alloc: Global, lines: &[Numbered]) -> Result<Option<(u32, NameKind)>, Memory>
    requires { length lines.now ≤ 2 ^ 28 }
    ensures { IfOk result (λ fault. fault ≡ first_fault empty lines.now) }
{
    let mut scope = Scope::new(alloc);
    for next in lines {
        match step(&mut scope, next)? {
            Some(kind) => return Ok(Some((next.number, kind))),
            None => {}
        }
    }
    Ok(None)
}
