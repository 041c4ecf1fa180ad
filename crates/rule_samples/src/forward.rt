// Two systems of the unit forward substitution
//
//   loop i                                             line 9
//     set x[i] = b[i]                                  line 10
//     for p in a.ptr[i]..a.diag[i]                     line 11
//       set x[i] = x[i] - a.val[p] * x[a.col[p]]       line 12
use crate::atoms::{entry, plain, variable};
use crate::system::{COL, DIAG, PTR, System};
use loop_core::decl::PropKind;
use loop_core::nest::{Atom, Side, Term};
use std::alloc::Global;
use wave_base::types::Memory;

/// The variable of the rows. It takes no memory.
pub fn row(side: Side) -> Atom {
    variable(9, side)
}

fn place(side: Side) -> Atom {
    variable(11, side)
}

/// The column a.col[p] that line 12 reads.
pub fn column(alloc: Global) -> Result<Atom, Memory> {
    entry(alloc, COL, place(Side::Own), 0)
}

// The properties of the loop, without or with that of the range of a.col.
fn push_props(system: &mut System, with_range: bool) -> Result<(), Memory> {
    let past = Term {
        atom: Atom::Nnz,
        plus: 1,
    };
    system.push_prop(4, PropKind::Range(PTR, plain(Atom::Zero), past))?;
    if with_range {
        system.push_prop(5, PropKind::Range(COL, plain(Atom::Zero), plain(Atom::N)))?;
    }
    system.push_prop(6, PropKind::Rising(PTR))?;
    system.push_prop(7, PropKind::Sorted(COL, PTR))?;
    system.push_prop(8, PropKind::Diagonal(DIAG, COL, PTR))
}

// a.ptr[i] <= p and p < a.diag[i]
fn push_loop(alloc: Global, system: &mut System, side: Side) -> Result<(), Memory> {
    system.push(entry(alloc, PTR, row(side), 0)?, place(side), 0)?;
    system.push(place(side), entry(alloc, DIAG, row(side), 0)?, -1)
}

// 0 <= i and i < j and j < n
fn push_rows(system: &mut System) -> Result<(), Memory> {
    system.push(Atom::Zero, row(Side::First), 0)?;
    system.push(row(Side::First), row(Side::Second), -1)?;
    system.push(row(Side::Second), Atom::N, -1)
}

// i and j are one row
fn push_same_cell(system: &mut System) -> Result<(), Memory> {
    system.push(row(Side::First), row(Side::Second), 0)?;
    system.push(row(Side::Second), row(Side::First), 0)
}

/// An iteration writes x[i] on line 10, and a later one reads x[i] on line 12; the last two
/// constraints, which may be left out, say that the two cells are the same.
pub fn relation(alloc: Global, same_cell: bool) -> Result<System, Memory> {
    let mut system = System::of_sizes(alloc)?;
    push_rows(&mut system)?;
    push_loop(alloc, &mut system, Side::Second)?;
    if same_cell {
        push_same_cell(&mut system)?;
    }
    push_props(&mut system, true)?;
    Ok(system)
}

/// The bounds of x[a.col[p]] on line 12, where the range of a.col isn't declared.
pub fn bracket(alloc: Global) -> Result<System, Memory> {
    let mut system = System::of_sizes(alloc)?;
    system.push(Atom::Zero, row(Side::Own), 0)?;
    system.push(row(Side::Own), Atom::N, -1)?;
    push_loop(alloc, &mut system, Side::Own)?;
    system.push_term(column(alloc)?)?;
    push_props(&mut system, false)?;
    Ok(system)
}
