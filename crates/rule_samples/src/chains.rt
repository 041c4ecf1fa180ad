// Two chains of loops over the rows of a matrix, each loop over the row that an entry of the one
// around it names:
//
//   loop i
//     for p in a.ptr[i]..a.ptr[i+1]
//       for q in a.ptr[a.col[p]]..a.ptr[a.col[p]+1]
//         ..
use crate::atoms::{entry, entry_at, plain, variable};
use crate::system::{COL, PTR, System};
use loop_core::copies::copy_atom;
use loop_core::decl::PropKind;
use loop_core::nest::{Atom, Side, Term};
use std::alloc::Global;
use wave_base::types::Memory;

// Pointers lie from 0 to nnz and rise, columns from 0 to below n, and the columns of a row rise strictly.
fn push_props(system: &mut System) -> Result<(), Memory> {
    let past = Term {
        atom: Atom::Nnz,
        plus: 1,
    };
    system.push_prop(2, PropKind::Range(PTR, plain(Atom::Zero), past))?;
    system.push_prop(3, PropKind::Range(COL, plain(Atom::Zero), plain(Atom::N)))?;
    system.push_prop(4, PropKind::Rising(PTR))?;
    system.push_prop(5, PropKind::Sorted(COL, PTR))
}

fn row(side: Side) -> Atom {
    variable(6, side)
}

fn place(level: u16, side: Side) -> Atom {
    variable(level.saturating_add(7), side)
}

// From the pointer of a row up to that of the next one. The answer is the entry's column.
fn push_level(
    alloc: Global,
    system: &mut System,
    row: &Atom,
    level: u16,
    side: Side,
) -> Result<Atom, Memory> {
    system.push(entry_at(alloc, PTR, row, 0)?, place(level, side), 0)?;
    system.push(place(level, side), entry_at(alloc, PTR, row, 1)?, -1)?;
    entry(alloc, COL, place(level, side), 0)
}

// The answer is the column of the last entry. The pointers of the row that it names are further terms.
fn push_chain(alloc: Global, system: &mut System, levels: u16, side: Side) -> Result<Atom, Memory> {
    system.push(Atom::Zero, row(side), 0)?;
    system.push(row(side), Atom::N, -1)?;
    let mut last = row(side);
    for level in 0..levels {
        last = push_level(alloc, system, &last, level, side)?;
    }
    system.push_term(entry_at(alloc, PTR, &last, 0)?)?;
    system.push_term(entry_at(alloc, PTR, &last, 1)?)?;
    Ok(last)
}

// The pointer of the second row is below that of the first.
fn push_contradiction(alloc: Global, system: &mut System) -> Result<(), Memory> {
    let first = entry(alloc, PTR, row(Side::First), 0)?;
    let second = entry(alloc, PTR, row(Side::Second), 0)?;
    system.push(second, first, -1)
}

fn push_equal(alloc: Global, system: &mut System, s: &Atom, t: &Atom) -> Result<(), Memory> {
    system.push(copy_atom(alloc, s)?, copy_atom(alloc, t)?, 0)?;
    system.push(copy_atom(alloc, t)?, copy_atom(alloc, s)?, 0)
}

/// Two chains of that many levels, of which the first row is below the second, and the columns of the
/// last entries are equal. In contradictory ones the second row begins before the first, which no
/// rising pointers can do.
pub fn two_chains(alloc: Global, levels: u16, contradictory: bool) -> Result<System, Memory> {
    let mut system = System::of_sizes(alloc)?;
    let first = push_chain(alloc, &mut system, levels, Side::First)?;
    let second = push_chain(alloc, &mut system, levels, Side::Second)?;
    system.push(row(Side::First), row(Side::Second), -1)?;
    push_equal(alloc, &mut system, &first, &second)?;
    if contradictory {
        push_contradiction(alloc, &mut system)?;
    }
    push_props(&mut system)?;
    Ok(system)
}
