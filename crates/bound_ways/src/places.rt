// Lists of atoms in which the place of an atom is found by its shape.
ghost use Rattle.std.specs.Prelude.{◌≡◌, ◌<◌, length, replicate, IfOk};
ghost use Rattle.bound_ways.specs.Places.{place_in, atom_at, AreFirst};

use crate::copy::copy_atoms;
use crate::place::place;
use loop_core::nest::{Atom, Side};
use sqlite_items::Items;
use std::alloc::Global;
use std::marker::Model;
use uf_constraints::same::same_atom;
use wave_base::types::Memory;

/// A list of atoms, which contracts see as that, with a table of places by the shape of their atoms.
#[derive(Drop)]
pub struct Places {
    atoms: Items<Atom>,
    table: Vec<usize>,
}

impl Model for Places {
    ghost use Rattle.std.specs.Prelude.{List};
    ghost use Rattle.loop_core.specs.declared.nest.Atom.{Atom};
    ghost use Rattle.loop_core.specs.contracts.nest.Atom as an_atom;
    ghost use Rattle.std.specs.Coded.{codes};
    ghost use Rattle.bound_ways.specs.Places.{AreFirst};

    ghost Value = { List Atom };

    ghost coded = { Prim.hlevel (codes, an_atom.the_row.coded) };

    ghost view = { λ p. p.atoms };

    ghost invariant = { λ p. AreFirst p.atoms p.table.items };
}

impl Places {
    /// The atoms of a list.
    pub fn new(alloc: Global, atoms: &[Atom]) -> Result<Places, Memory>
        ensures { IfOk result (λ p. p ≡ atoms.now) }
    {
        let atoms = copy_atoms(alloc, atoms)?;
        let table = table(alloc, atoms.as_slice())?;
        Ok(Places { atoms, table })
    }

    /// The number of atoms.
    pub fn len(&self) -> usize
        ensures { result ≡ length self.now }
    {
        self.atoms.len()
    }

    /// The atoms as a slice.
    pub fn as_slice(&self) -> &[Atom]
        ensures { result.now ≡ self.now }
    {
        self.atoms.as_slice()
    }

    /// The place of the first atom that is equal to this one, and the number of atoms where there is
    /// none. It takes no memory.
    pub fn place(&self, atom: &Atom) -> usize
        ensures { result ≡ place_in self.now atom.now }
    {
        find(self.atoms.as_slice(), &self.table, atom)
    }
}

// A number for the shape of an atom, which few atoms share.
fn shape(atom: &Atom) -> u64 {
    match atom {
        Atom::Zero => 1,
        Atom::N => 2,
        Atom::Nnz => 3,
        Atom::Var(var) => side(var.side).wrapping_add(u64::from(var.line).wrapping_mul(256)),
        Atom::At(array, inner) => {
            let term = inner.get();
            let within = shape(&term.atom).wrapping_add(term.plus.cast_unsigned().wrapping_mul(7));
            mixed(within).wrapping_add(u64::from(array.0))
        }
    }
}

fn side(side: Side) -> u64 {
    match side {
        Side::Own => 4,
        Side::First => 5,
        Side::Second => 6,
    }
}

// The odd number next to 2^64 divided by the golden ratio spreads neighbours over all 64 bits.
fn mixed(number: u64) -> u64 {
    number.wrapping_mul(0x9E37_79B9_7F4A_7C15)
}

// A place below 4096 in the table.
fn key(atom: &Atom) -> usize {
    (mixed(shape(atom)) >> 52) as usize
}

fn held(atoms: &[Atom], table: &[usize], key: usize) -> usize
    requires { AreFirst atoms.now table.now }
    ensures { result < length atoms.now → place_in atoms.now (atom_at atoms.now result) ≡ result }
{
    if key < table.len() {
        table[key]
    } else {
        atoms.len()
    }
}

fn find(atoms: &[Atom], table: &[usize], atom: &Atom) -> usize
    requires { AreFirst atoms.now table.now }
    ensures { result ≡ place_in atoms.now atom.now }
{
    let at = held(atoms, table, key(atom));
    if at < atoms.len() {
        if same_atom(atom, &atoms[at]) {
            return at;
        }
    }
    place(atoms, atom)
}

fn put(atoms: &[Atom], table: &mut Vec<usize>, atom: &Atom)
    requires { AreFirst atoms.now table.old.items }
    ensures { AreFirst atoms.now table.new.items }
{
    let key = key(atom);
    if key < table.len() {
        table[key] = place(atoms, atom);
    }
}

// A table of so many numbers, none of which is a place.
fn blank(alloc: Global, atoms: &[Atom], many: usize) -> Result<Vec<usize>, Memory>
    ensures { IfOk result (λ t. t.items ≡ replicate many (length atoms.now)) }
{
    Ok(vec![in alloc; atoms.len(); many]?)
}

fn table(alloc: Global, atoms: &[Atom]) -> Result<Vec<usize>, Memory>
    ensures { IfOk result (λ t. AreFirst atoms.now t.items) }
{
    let mut table = blank(alloc, atoms, 4096)?;
    for atom in atoms {
        put(atoms, &mut table, atom);
    }
    Ok(table)
}
