// The universe of a system of constraints.
ghost use Rattle.std.specs.Prelude.{◌≡◌, ◌≤◌, ◌+◌, ◌++◌, ◌^◌, length, OnOk, IfOk, IfErr, MatchResult, unsigned_abs, [], ◌∷◌};
ghost use Rattle.std.specs.List.{flat_map};
ghost use Rattle.loop_core.specs.declared.nest.Atom.{out-Atom};
ghost use Rattle.loop_core.specs.declared.nest.Atom.TheVariants.{Zero, N, Nnz, At};
ghost use Rattle.uf_constraints.specs.Constants.{DiffsWithin, TermsWithin, IndexWithin, IndexesWithin};
ghost use Rattle.uf_constraints.specs.Once.{IsOnce};
ghost use Rattle.uf_constraints.specs.Over.{AllOver, HasAtoms, IsClosed};
ghost use Rattle.uf_constraints.specs.Universe.{written_atoms, atoms_due, asked_by, asked_beside, plain, next};
ghost use Rattle.uf_constraints.specs.Refusal.{IsCause};

use crate::listing::{list_all, list_base, list_terms};
use crate::system::{Diff, Universe};
use loop_core::copies::{copy_atom, copy_term};
use loop_core::decl::{PropDecl, PropKind};
use loop_core::nest::{Atom, Term};
use sqlite_items::{Boxed, Items};
use std::alloc::Global;
use wave_base::types::{ArrayId, Memory};

/// Why there is no universe: more than 96 atoms are due, or out of memory.
#[derive(Clone, Copy, Debug, PartialEq, Eq)]
pub enum UniverseRefusal {
    TermsFull { count: u64 },
    Memory,
}

impl From<Memory> for UniverseRefusal {
    ghost use Rattle.std.specs.Prelude.{◌≡◌};
    ghost use Rattle.uf_constraints.specs.declared.universe.UniverseRefusal.TheVariants.{Memory};

    ghost from_gives = { λ _ e. e ≡ Memory };

    fn from(_out: Memory) -> UniverseRefusal {
        UniverseRefusal::Memory
    }
}

/// The atoms 0, n and nnz; those of the base in order, left before right, each after the atoms
/// inside it; those of the further terms; and last, for each atom `d[t]` listed so far and each
/// `diagonal d of f by p`, the atoms `f[d[t]]`, `p[t]` and `p[t+1]` that are missing.
///
/// `TermsFull` comes exactly where more than 96 atoms are due, with the number that is due.
pub fn universe(
    alloc: Global,
    base: &[Diff],
    extra: &[Term],
    props: &[PropDecl],
) -> Result<Universe, UniverseRefusal>
    requires base { DiffsWithin (2 ^ 21) base.now }
    requires extra { TermsWithin (2 ^ 21) extra.now }
    ensures atoms { IfOk result (λ u. u.atoms ≡ atoms_due base.now extra.now props.now) }
    ensures within { IfOk result (λ u. IndexesWithin (2 ^ 21 + 1) u.atoms) }
    ensures closed { IfOk result (λ u. IsClosed u.atoms) }
    ensures over { IfOk result (λ u. AllOver u.atoms base.now) }
    ensures terms { IfOk result (λ u. HasAtoms u.atoms extra.now) }
    ensures cause { IfErr result (IsCause (atoms_due base.now extra.now props.now)) }
{
    let atoms = due(alloc, base, extra, props)?;
    checked(atoms)
}

fn checked(atoms: Items<Atom>) -> Result<Universe, UniverseRefusal>
    requires { IsOnce atoms }
    ensures { MatchResult result (λ u. u.atoms ≡ atoms) (IsCause atoms) }
{
    if atoms.len() > 96 {
        return Err(UniverseRefusal::TermsFull {
            count: atoms.len() as u64,
        });
    }
    Ok(Universe { atoms })
}

fn due(
    alloc: Global,
    base: &[Diff],
    extra: &[Term],
    props: &[PropDecl],
) -> Result<Items<Atom>, Memory>
    requires base { DiffsWithin (2 ^ 21) base.now }
    requires extra { TermsWithin (2 ^ 21) extra.now }
    ensures atoms { IfOk result (λ atoms. atoms ≡ atoms_due base.now extra.now props.now) }
    ensures within { IfOk result (IndexesWithin (2 ^ 21 + 1)) }
    ensures once { IfOk result IsOnce }
    ensures closed { IfOk result IsClosed }
    ensures over { IfOk result (λ atoms. AllOver atoms base.now) }
    ensures terms { IfOk result (λ atoms. HasAtoms atoms extra.now) }
{
    let mut atoms = written(alloc, base, extra)?;
    let asked = asked(alloc, atoms.as_slice(), props)?;
    list_all(alloc, asked.as_slice(), &mut atoms)?;
    Ok(atoms)
}

fn written(alloc: Global, base: &[Diff], extra: &[Term]) -> Result<Items<Atom>, Memory>
    requires base { DiffsWithin (2 ^ 21) base.now }
    requires extra { TermsWithin (2 ^ 21) extra.now }
    ensures atoms { IfOk result (λ atoms. atoms ≡ written_atoms base.now extra.now) }
    ensures within { IfOk result (IndexesWithin (2 ^ 21)) }
{
    let mut atoms = sizes(alloc)?;
    list_base(alloc, base, &mut atoms)?;
    list_terms(alloc, extra, &mut atoms)?;
    Ok(atoms)
}

fn sizes(alloc: Global) -> Result<Items<Atom>, Memory>
    ensures atoms { IfOk result (λ atoms. atoms ≡ Zero ∷ N ∷ Nnz ∷ []) }
    ensures within { IfOk result (IndexesWithin (2 ^ 21)) }
{
    let mut atoms = Items::new(alloc);
    atoms.push(Atom::Zero)?;
    atoms.push(Atom::N)?;
    atoms.push(Atom::Nnz)?;
    Ok(atoms)
}

// What the properties ask for beside the atoms.
fn asked(alloc: Global, atoms: &[Atom], props: &[PropDecl]) -> Result<Items<Atom>, Memory>
    requires { IndexesWithin (2 ^ 21) atoms.now }
    ensures atoms { IfOk result (λ asked. asked ≡ flat_map (asked_beside props.now) atoms.now) }
    ensures within { IfOk result (IndexesWithin (2 ^ 21 + 1)) }
{
    let mut asked = Items::new(alloc);
    for atom in atoms {
        ask_beside(alloc, atom, props, &mut asked)?;
    }
    Ok(asked)
}

fn ask_beside(
    alloc: Global,
    atom: &Atom,
    props: &[PropDecl],
    into: &mut Items<Atom>,
) -> Result<(), Memory>
    requires atom { IndexWithin (2 ^ 21) (out-Atom atom.now) }
    requires into { IndexesWithin (2 ^ 21 + 1) into.old }
    ensures atoms { OnOk result (into.new ≡ into.old ++ asked_beside props.now atom.now) }
    ensures within { OnOk result (IndexesWithin (2 ^ 21 + 1) into.new) }
{
    for prop in props {
        ask_by(alloc, atom, prop, into)?;
    }
    Ok(())
}

fn ask_by(alloc: Global, atom: &Atom, prop: &PropDecl, into: &mut Items<Atom>) -> Result<(), Memory>
    requires atom { IndexWithin (2 ^ 21) (out-Atom atom.now) }
    requires into { IndexesWithin (2 ^ 21 + 1) into.old }
    ensures atoms { OnOk result (into.new ≡ into.old ++ asked_by atom.now prop.now) }
    ensures within { OnOk result (IndexesWithin (2 ^ 21 + 1) into.new) }
{
    match (&prop.kind, atom) {
        (PropKind::Diagonal(d, f, p), Atom::At(array, index)) => {
            if *array == *d {
                ask(alloc, atom, index.get(), *f, *p, into)
            } else {
                Ok(())
            }
        }
        _ => Ok(()),
    }
}

// f[d[t]], p[t] and p[t+1] beside d[t]
fn ask(
    alloc: Global,
    atom: &Atom,
    index: &Term,
    f: ArrayId,
    p: ArrayId,
    into: &mut Items<Atom>,
) -> Result<(), Memory>
    requires index { unsigned_abs index.now.plus ≤ 2 ^ 21 }
    requires into { IndexesWithin (2 ^ 21 + 1) into.old }
    ensures atoms { OnOk result (into.new
        ≡ into.old ++ At f (plain atom.now) ∷ At p index.now ∷ At p (next index.now) ∷ []) }
    ensures within { OnOk result (IndexesWithin (2 ^ 21 + 1) into.new) }
{
    let atom = copy_atom(alloc, atom)?;
    let index = copy_term(alloc, index)?;
    let after = Term {
        atom: copy_atom(alloc, &index.atom)?,
        plus: index.plus + 1,
    };
    push_entry(alloc, f, Term { atom, plus: 0 }, into)?;
    push_entry(alloc, p, index, into)?;
    push_entry(alloc, p, after, into)
}

#[tactic(auto, using(crate::proofs::Indexes::pushed_within))]
fn push_entry(
    alloc: Global,
    array: ArrayId,
    index: Term,
    into: &mut Items<Atom>,
) -> Result<(), Memory>
    requires index { unsigned_abs index.plus ≤ 2 ^ 21 + 1 }
    requires into { IndexesWithin (2 ^ 21 + 1) into.old }
    ensures atoms { OnOk result (into.new ≡ into.old ++ At array index ∷ []) }
    ensures within { OnOk result (IndexesWithin (2 ^ 21 + 1) into.new) }
{
    let index = Boxed::new(alloc, index)?;
    into.push(Atom::At(array, index))?;
    Ok(())
}
