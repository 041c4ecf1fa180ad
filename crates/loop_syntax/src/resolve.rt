// Terms, expressions and properties with their names resolved.
ghost use Rattle.std.specs.Prelude.{◌≡◌, IfOk};
ghost use Rattle.loop_syntax.specs.Resolved.{number_of, loop_line, local_number, array_in, variable_in, local_in, term_in, value_in, prop_in};
ghost use Rattle.loop_syntax.specs.Narrow.{IsNarrow};

use crate::scope::{ArrayUse, Meaning, Scope};
use loop_core::decl::PropKind;
use loop_core::name::Name;
use loop_core::nest::{Atom, Expr, Side, Term, VarId};
use loop_lines::line::NamedProp;
use loop_lines::tree::{ArrayName, NamedAtom, NamedExpr, NamedTerm};
use sqlite_items::Boxed;
use std::alloc::Global;
use wave_base::types::{ArrayId, Memory};

/// The number of an array, and 0 where no array stands.
pub fn number_of(array: ArrayUse) -> u32
    ensures { result ≡ number_of array }
{
    match array {
        ArrayUse::Indexes(_, number) => number,
        ArrayUse::Holds(_, number) => number,
        _ => 0,
    }
}

/// The line of a variable's loop, and 0 where no variable stands.
fn loop_line(meaning: Option<Meaning>) -> u32
    ensures { result ≡ loop_line meaning }
{
    match meaning {
        Some(Meaning::Variable(line)) => line,
        _ => 0,
    }
}

/// The number of a local, and 0 where no local stands.
fn local_number(meaning: Option<Meaning>) -> u32
    ensures { result ≡ local_number meaning }
{
    match meaning {
        Some(Meaning::Local(number)) => number,
        _ => 0,
    }
}

/// The array of a name.
pub fn array_in(scope: &Scope, array: &ArrayName) -> ArrayId
    requires { IsNarrow scope.now }
    ensures { result ≡ array_in scope.now array.now }
{
    ArrayId(number_of(scope.use_of(array)) as u8)
}

fn variable_in(scope: &Scope, name: &Name) -> VarId
    requires { IsNarrow scope.now }
    ensures { result ≡ variable_in scope.now name.now }
{
    VarId {
        line: loop_line(scope.meaning_of(name)) as u16,
        side: Side::Own,
    }
}

/// The number of the local of a name.
pub fn local_in(scope: &Scope, name: &Name) -> u8
    requires { IsNarrow scope.now }
    ensures { result ≡ local_in scope.now name.now }
{
    local_number(scope.meaning_of(name)) as u8
}

/// The term of arrays and variables. It calls itself as deep as brackets stand in one another.
pub fn term_in(alloc: Global, scope: &Scope, term: &NamedTerm) -> Result<Term, Memory>
    requires { IsNarrow scope.now }
    ensures { IfOk result (λ t. t ≡ term_in scope.now term.now) }
{
    let plus = term.plus;
    match &term.atom {
        NamedAtom::Zero => Ok(Term {
            atom: Atom::Zero,
            plus,
        }),
        NamedAtom::N => Ok(Term {
            atom: Atom::N,
            plus,
        }),
        NamedAtom::Nnz => Ok(Term {
            atom: Atom::Nnz,
            plus,
        }),
        NamedAtom::Var(name) => Ok(Term {
            atom: Atom::Var(variable_in(scope, name)),
            plus,
        }),
        NamedAtom::At(array, inner) => {
            let inner = term_in(alloc, scope, inner.get())?;
            let inner = Boxed::new(alloc, inner)?;
            let atom = Atom::At(array_in(scope, array), inner);
            Ok(Term { atom, plus })
        }
    }
}

/// The expression of arrays and locals. It calls itself as deep as operations stand in one another.
pub fn value_in(alloc: Global, scope: &Scope, value: &NamedExpr) -> Result<Expr, Memory>
    requires { IsNarrow scope.now }
    ensures { IfOk result (λ e. e ≡ value_in scope.now value.now) }
{
    match value {
        NamedExpr::Lit(word) => Ok(Expr::Lit(*word)),
        NamedExpr::Read(array, at) => {
            let at = term_in(alloc, scope, at)?;
            Ok(Expr::Read(array_in(scope, array), at))
        }
        NamedExpr::Local(name) => Ok(Expr::Local(local_in(scope, name))),
        NamedExpr::Op(op, left, right) => {
            let left = value_in(alloc, scope, left.get())?;
            let left = Boxed::new(alloc, left)?;
            let right = value_in(alloc, scope, right.get())?;
            let right = Boxed::new(alloc, right)?;
            Ok(Expr::Op(*op, left, right))
        }
    }
}

/// The property of arrays.
pub fn prop_in(alloc: Global, scope: &Scope, prop: &NamedProp) -> Result<PropKind, Memory>
    requires { IsNarrow scope.now }
    ensures { IfOk result (λ p. p ≡ prop_in scope.now prop.now) }
{
    match prop {
        NamedProp::Range(array, lo, hi) => {
            let lo = term_in(alloc, scope, lo)?;
            let hi = term_in(alloc, scope, hi)?;
            Ok(PropKind::Range(array_in(scope, array), lo, hi))
        }
        NamedProp::Rising(array) => Ok(PropKind::Rising(array_in(scope, array))),
        NamedProp::Strict(array) => Ok(PropKind::Strict(array_in(scope, array))),
        NamedProp::Injective(array) => Ok(PropKind::Injective(array_in(scope, array))),
        NamedProp::Sorted(array, by) => {
            Ok(PropKind::Sorted(array_in(scope, array), array_in(scope, by)))
        }
        NamedProp::Below(array, by) => {
            Ok(PropKind::Below(array_in(scope, array), array_in(scope, by)))
        }
        NamedProp::Upto(array, by) => {
            Ok(PropKind::Upto(array_in(scope, array), array_in(scope, by)))
        }
        NamedProp::Diagonal(places, array, by) => Ok(PropKind::Diagonal(
            array_in(scope, places),
            array_in(scope, array),
            array_in(scope, by),
        )),
        NamedProp::Before(first, second) => {
            Ok(PropKind::Before(array_in(scope, first), array_in(scope, second)))
        }
    }
}
