// The plain way to a universe: all atoms are listed with repeats, and each is kept at its first
// place. It says what the quick way has to give, in a body that follows the sentences.
ghost use Rattle.std.specs.Prelude.{◌≡◌, ◌+◌, ◌++◌, ◌^◌, ◌≤◌, OnOk, IfOk, IfErr, MatchResult, unsigned_abs, if◌then◌else◌, [], ◌∷◌};
ghost use Rattle.std.specs.List.{flat_map};
ghost use Rattle.loop_core.specs.declared.nest.Atom.{out-Atom};
ghost use Rattle.loop_core.specs.declared.nest.Atom.TheVariants.{Zero, N, Nnz, At};
ghost use Rattle.uf_constraints.specs.Constants.{DiffsWithin, TermsWithin, IndexWithin, IndexesWithin};
ghost use Rattle.uf_constraints.specs.Once.{IsOnce};
ghost use Rattle.uf_constraints.specs.Over.{AllOver, HasAtoms, IsClosed};
ghost use Rattle.uf_constraints.specs.Same.{is_listed};
ghost use Rattle.uf_constraints.specs.Universe.{all_listed, atom_parts, term_parts, diff_parts, diagonal_atoms, asked_beside, atoms_due};
ghost use Rattle.uf_constraints.specs.Refusal.{IsCause};

use crate::same::same_atom;
use crate::system::{Diff, Universe};
use crate::universe::UniverseRefusal;
use loop_core::copies::{copy_atom, copy_term};
use loop_core::decl::{PropDecl, PropKind};
use loop_core::nest::{Atom, Term};
use sqlite_items::{Boxed, Items};
use std::alloc::Global;
use wave_base::types::{ArrayId, Memory};

/// The universe, as `universe` gives it, by searches.
pub fn universe_by_search(
    alloc: Global,
    base: &[Diff],
    extra: &[Term],
    props: &[PropDecl],
) -> Result<Universe, UniverseRefusal>
    requires base { DiffsWithin (2 ^ 21) base.now }
    requires extra { TermsWithin (2 ^ 21) extra.now }
    ensures atoms { IfOk result (λ u. u.atoms ≡ atoms_due base.now extra.now props.now) }
    ensures within { IfOk result (λ u. IndexesWithin (2 ^ 21 + 1) u.atoms) }
    ensures closed { IfOk result (λ u. IsClosed u.atoms) }
    ensures over { IfOk result (λ u. AllOver u.atoms base.now) }
    ensures terms { IfOk result (λ u. HasAtoms u.atoms extra.now) }
    ensures cause { IfErr result (IsCause (atoms_due base.now extra.now props.now)) }
{
    let atoms = due(alloc, base, extra, props)?;
    judged(atoms)
}

// The universe of these atoms, where they are few enough.
fn judged(atoms: Items<Atom>) -> Result<Universe, UniverseRefusal>
    requires { IsOnce atoms }
    ensures { MatchResult result (λ u. u.atoms ≡ atoms) (IsCause atoms) }
{
    let count = atoms.len() as u64;
    if count <= 96 {
        Ok(Universe { atoms })
    } else {
        Err(UniverseRefusal::TermsFull { count })
    }
}

// What is written, and then what is asked for beside it, each atom once.
fn due(
    alloc: Global,
    base: &[Diff],
    extra: &[Term],
    props: &[PropDecl],
) -> Result<Items<Atom>, Memory>
    requires base { DiffsWithin (2 ^ 21) base.now }
    requires extra { TermsWithin (2 ^ 21) extra.now }
    ensures { IfOk result (λ atoms. atoms ≡ atoms_due base.now extra.now props.now) }
{
    let all = written(alloc, base, extra)?;
    let mut kept = first_places(alloc, all.as_slice())?;
    let asked = asked(alloc, kept.as_slice(), props)?;
    kept.append(asked)?;
    first_places(alloc, kept.as_slice())
}

// 0, n and nnz, and then the atoms of the base and of the further terms, with repeats.
fn written(alloc: Global, base: &[Diff], extra: &[Term]) -> Result<Items<Atom>, Memory>
    ensures { IfOk result (λ atoms. atoms
        ≡ (Zero ∷ N ∷ Nnz ∷ []) ++ flat_map diff_parts base.now ++ flat_map term_parts extra.now) }
{
    let mut atoms = Items::new(alloc);
    atoms.push(Atom::Zero)?;
    atoms.push(Atom::N)?;
    atoms.push(Atom::Nnz)?;
    push_diffs(alloc, base, &mut atoms)?;
    push_terms(alloc, extra, &mut atoms)?;
    Ok(atoms)
}

fn push_diffs(alloc: Global, base: &[Diff], into: &mut Items<Atom>) -> Result<(), Memory>
    ensures { OnOk result (into.new ≡ into.old ++ flat_map diff_parts base.now) }
{
    for diff in base {
        push_diff(alloc, diff, into)?;
    }
    Ok(())
}

fn push_diff(alloc: Global, diff: &Diff, into: &mut Items<Atom>) -> Result<(), Memory>
    ensures { OnOk result (into.new ≡ into.old ++ diff_parts diff.now) }
{
    push_atom(alloc, &diff.a, into)?;
    push_atom(alloc, &diff.b, into)
}

fn push_terms(alloc: Global, terms: &[Term], into: &mut Items<Atom>) -> Result<(), Memory>
    ensures { OnOk result (into.new ≡ into.old ++ flat_map term_parts terms.now) }
{
    for term in terms {
        push_term(alloc, term, into)?;
    }
    Ok(())
}

// The atoms inside a term.
#[cycle(push)]
fn push_term(alloc: Global, term: &Term, into: &mut Items<Atom>) -> Result<(), Memory>
    ensures { OnOk result (into.new ≡ into.old ++ term_parts term.now) }
{
    push_atom(alloc, &term.atom, into)
}

// The atoms inside an atom, and then it itself.
#[cycle(push)]
fn push_atom(alloc: Global, atom: &Atom, into: &mut Items<Atom>) -> Result<(), Memory>
    ensures { OnOk result (into.new ≡ into.old ++ atom_parts atom.now) }
{
    match atom {
        Atom::At(_, inner) => {
            push_term(alloc, inner.get(), into)?;
            push_one(alloc, atom, into)
        }
        Atom::Zero => push_one(alloc, atom, into),
        Atom::N => push_one(alloc, atom, into),
        Atom::Nnz => push_one(alloc, atom, into),
        Atom::Var(_) => push_one(alloc, atom, into),
    }
}

fn push_one(alloc: Global, atom: &Atom, into: &mut Items<Atom>) -> Result<(), Memory>
    ensures { OnOk result (into.new ≡ into.old ++ atom.now ∷ []) }
{
    into.push(copy_atom(alloc, atom)?)?;
    Ok(())
}

// The atoms that stand at no earlier place.
fn first_places(alloc: Global, atoms: &[Atom]) -> Result<Items<Atom>, Memory>
    ensures { IfOk result (λ kept. kept ≡ all_listed [] atoms.now) }
{
    let mut kept = Items::new(alloc);
    for (place, atom) in atoms.iter().enumerate() {
        push_new(alloc, &atoms[..place], atom, &mut kept)?;
    }
    Ok(kept)
}

fn push_new(
    alloc: Global,
    earlier: &[Atom],
    atom: &Atom,
    into: &mut Items<Atom>,
) -> Result<(), Memory>
    ensures { OnOk result (into.new
        ≡ (if is_listed earlier.now atom.now then into.old else into.old ++ atom.now ∷ [])) }
{
    if stands_in(earlier, atom) {
        return Ok(());
    }
    push_one(alloc, atom, into)
}

fn stands_in(atoms: &[Atom], atom: &Atom) -> bool
    ensures { result ≡ is_listed atoms.now atom.now }
{
    for other in atoms {
        if same_atom(atom, other) {
            return true;
        }
    }
    false
}

// What each property asks for beside each atom.
fn asked(alloc: Global, atoms: &[Atom], props: &[PropDecl]) -> Result<Items<Atom>, Memory>
    requires { IndexesWithin (2 ^ 21) atoms.now }
    ensures { IfOk result (λ asked. asked ≡ flat_map (asked_beside props.now) atoms.now) }
{
    let mut asked = Items::new(alloc);
    for atom in atoms {
        push_asked(alloc, atom, props, &mut asked)?;
    }
    Ok(asked)
}

fn push_asked(
    alloc: Global,
    atom: &Atom,
    props: &[PropDecl],
    into: &mut Items<Atom>,
) -> Result<(), Memory>
    requires { IndexWithin (2 ^ 21) (out-Atom atom.now) }
    ensures { OnOk result (into.new ≡ into.old ++ asked_beside props.now atom.now) }
{
    for prop in props {
        push_asked_by(alloc, atom, &prop.kind, into)?;
    }
    Ok(())
}

fn push_asked_by(
    alloc: Global,
    atom: &Atom,
    kind: &PropKind,
    into: &mut Items<Atom>,
) -> Result<(), Memory>
    requires { IndexWithin (2 ^ 21) (out-Atom atom.now) }
    ensures { OnOk result (into.new ≡ into.old ++ diagonal_atoms atom.now (out-Atom atom.now) kind.now) }
{
    let PropKind::Diagonal(d, f, p) = kind else {
        return Ok(());
    };
    let Atom::At(array, index) = atom else {
        return Ok(());
    };
    if *array != *d {
        return Ok(());
    }
    push_entry(alloc, *f, copy_atom(alloc, atom)?, 0, into)?;
    push_entry(
        alloc,
        *p,
        copy_atom(alloc, &index.get().atom)?,
        index.get().plus,
        into,
    )?;
    push_entry(
        alloc,
        *p,
        copy_atom(alloc, &index.get().atom)?,
        index.get().plus + 1,
        into,
    )
}

// The entry of an array at an atom plus a constant.
fn push_entry(
    alloc: Global,
    array: ArrayId,
    atom: Atom,
    plus: i64,
    into: &mut Items<Atom>,
) -> Result<(), Memory>
    ensures { OnOk result
        (into.new ≡ into.old ++ At array (record { atom = atom; plus = plus }) ∷ []) }
{
    let index = Boxed::new(alloc, Term { atom, plus })?;
    into.push(Atom::At(array, index))?;
    Ok(())
}
