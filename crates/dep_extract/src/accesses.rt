// What is written in the brackets of terms and expressions.
ghost use Rattle.std.specs.Prelude.{◌≡◌, ◌+◌, [], ◌∷◌, ◌++◌, IfOk, OnOk};
ghost use Rattle.uf_constraints.specs.Brackets.{atom_accesses, term_accesses, bracket_accesses, expr_accesses, bracket, numbered as numbered_from};

use loop_core::copies::copy_term;
use loop_core::nest::{Atom, Expr, Term};
use sqlite_items::Items;
use std::alloc::Global;
use uf_constraints::reach::{Access, Bracket, Usage};
use wave_base::types::{ArrayId, Memory};

/// The entries in a term, an outer one before the one inside it.
#[cycle(push)]
pub fn push_term(alloc: Global, term: &Term, into: &mut Items<Access>) -> Result<(), Memory>
    ensures { OnOk result (into.new ≡ into.old ++ term_accesses term.now) }
{
    push_atom(alloc, &term.atom, into)
}

#[cycle(push)]
fn push_atom(alloc: Global, atom: &Atom, into: &mut Items<Access>) -> Result<(), Memory>
    ensures { OnOk result (into.new ≡ into.old ++ atom_accesses atom.now) }
{
    match atom {
        Atom::Zero => Ok(()),
        Atom::N => Ok(()),
        Atom::Nnz => Ok(()),
        Atom::Var(_) => Ok(()),
        Atom::At(array, inner) => {
            let at = copy_term(alloc, inner.get())?;
            into.push(Access {
                array: *array,
                at,
                usage: Usage::Entry,
            })?;
            push_term(alloc, inner.get(), into)
        }
    }
}

/// A bracket of this use, and the entries inside it.
pub fn push_bracket(
    alloc: Global,
    usage: Usage,
    array: ArrayId,
    at: &Term,
    into: &mut Items<Access>,
) -> Result<(), Memory>
    ensures { OnOk result (into.new ≡ into.old ++ bracket_accesses usage array at.now) }
{
    into.push(Access {
        array,
        at: copy_term(alloc, at)?,
        usage,
    })?;
    push_term(alloc, at, into)
}

/// The brackets of an expression, from left to right.
pub fn push_expr(alloc: Global, expr: &Expr, into: &mut Items<Access>) -> Result<(), Memory>
    ensures { OnOk result (into.new ≡ into.old ++ expr_accesses expr.now) }
{
    match expr {
        Expr::Lit(_) => Ok(()),
        Expr::Read(array, at) => push_bracket(alloc, Usage::Reads, *array, at, into),
        Expr::Local(_) => Ok(()),
        Expr::Op(_, left, right) => {
            push_expr(alloc, left.get(), into)?;
            push_expr(alloc, right.get(), into)
        }
    }
}

/// The brackets numbered from 1. A number past 65,535, which no text has, is answered as `Memory`.
pub fn numbered(alloc: Global, accesses: &[Access]) -> Result<Items<Bracket>, Memory>
    ensures { IfOk result (λ bs. bs ≡ numbered_from 1 accesses.now) }
{
    let mut brackets = Items::new(alloc);
    for (place, access) in accesses.iter().enumerate() {
        push_numbered(alloc, place, access, &mut brackets)?;
    }
    Ok(brackets)
}

fn push_numbered(
    alloc: Global,
    place: usize,
    access: &Access,
    into: &mut Items<Bracket>,
) -> Result<(), Memory>
    ensures { OnOk result (into.new ≡ into.old ++ bracket (place + 1) access.now ∷ []) }
{
    let number = number_at(place)?;
    let at = copy_term(alloc, &access.at)?;
    into.push(Bracket {
        number,
        array: access.array,
        at,
        usage: access.usage,
    })?;
    Ok(())
}

fn number_at(place: usize) -> Result<u16, Memory>
    ensures { IfOk result (λ n. n ≡ place + 1) }
{
    if place < 65_535 {
        Ok(place as u16 + 1)
    } else {
        Err(Memory)
    }
}
