// Lists of atoms without repeats.
ghost use Rattle.std.specs.Prelude.{◌≡◌, OnOk};
ghost use Rattle.std.specs.List.{flat_map};
ghost use Rattle.uf_constraints.specs.Universe.{listed, all_listed, atom_parts, term_parts, diff_parts};

use crate::same::is_listed;
use crate::system::Diff;
use loop_core::copies::copy_atom;
use loop_core::nest::{Atom, Term};
use sqlite_items::Items;
use std::alloc::Global;
use wave_base::types::Memory;

fn list_one(alloc: Global, atom: &Atom, into: &mut Items<Atom>) -> Result<(), Memory>
    ensures { OnOk result (into.new ≡ listed into.old atom.now) }
{
    if is_listed(into.as_slice(), atom) {
        return Ok(());
    }
    into.push(copy_atom(alloc, atom)?)?;
    Ok(())
}

/// Lists atoms in their order, those that were listed before left out.
pub fn list_all(alloc: Global, atoms: &[Atom], into: &mut Items<Atom>) -> Result<(), Memory>
    ensures { OnOk result (into.new ≡ all_listed into.old atoms.now) }
{
    for atom in atoms {
        list_one(alloc, atom, into)?;
    }
    Ok(())
}

#[cycle(list)]
fn list_atom(alloc: Global, atom: &Atom, into: &mut Items<Atom>) -> Result<(), Memory>
    ensures { OnOk result (into.new ≡ all_listed into.old (atom_parts atom.now)) }
{
    match atom {
        Atom::At(_, inner) => {
            list_term(alloc, inner.get(), into)?;
            list_one(alloc, atom, into)
        }
        Atom::Zero => list_one(alloc, atom, into),
        Atom::N => list_one(alloc, atom, into),
        Atom::Nnz => list_one(alloc, atom, into),
        Atom::Var(_) => list_one(alloc, atom, into),
    }
}

#[cycle(list)]
fn list_term(alloc: Global, term: &Term, into: &mut Items<Atom>) -> Result<(), Memory>
    ensures { OnOk result (into.new ≡ all_listed into.old (term_parts term.now)) }
{
    list_atom(alloc, &term.atom, into)
}

/// Lists the atoms of constraints, left before right, each after the atoms inside it.
pub fn list_base(alloc: Global, base: &[Diff], into: &mut Items<Atom>) -> Result<(), Memory>
    ensures { OnOk result (into.new ≡ all_listed into.old (flat_map diff_parts base.now)) }
{
    for diff in base {
        list_diff(alloc, diff, into)?;
    }
    Ok(())
}

fn list_diff(alloc: Global, diff: &Diff, into: &mut Items<Atom>) -> Result<(), Memory>
    ensures { OnOk result (into.new ≡ all_listed into.old (diff_parts diff.now)) }
{
    list_atom(alloc, &diff.a, into)?;
    list_atom(alloc, &diff.b, into)
}

/// Lists the atoms of terms, each after the atoms inside it.
pub fn list_terms(alloc: Global, terms: &[Term], into: &mut Items<Atom>) -> Result<(), Memory>
    ensures { OnOk result (into.new ≡ all_listed into.old (flat_map term_parts terms.now)) }
{
    for term in terms {
        list_term(alloc, term, into)?;
    }
    Ok(())
}
