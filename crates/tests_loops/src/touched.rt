// Cells that a small nest touches.
use crate::parts::Part::{Apply, At, Begin, For, Keep, Local, Num, Plus, Read, Set, Var};
use crate::parts::{Part, name, nest_of, push_list};
use loop_core::arrays::Arrays;
use loop_core::decl::{Decl, DeclKind, Form, Size, Source};
use loop_core::depth::has_depth_within;
use loop_core::nest::{Nest, Op};
use loop_meaning::cells::Touches;
use loop_meaning::touches::touches;
use std::alloc::Global;
use std::process::Abort;
use std::test::Fail;
use wave_base::types::{Cell, RowId};

fn push_decl(nest: &mut Nest, line: u16, kind: DeclKind) -> Result<(), Fail> {
    nest.decls.push(Decl {
        line,
        name: name()?,
        kind,
    })?;
    Ok(())
}

// A matrix by columns, with arrays 0 to 3, and the vector x, array 4.
pub fn by_columns(alloc: Global, parts: &[Part]) -> Result<Nest, Fail> {
    let mut nest = nest_of(alloc, parts)?;
    push_decl(&mut nest, 1, DeclKind::Matrix(Form::Csc))?;
    push_decl(&mut nest, 2, DeclKind::Vector(Size::N, Source::File))?;
    Ok(nest)
}

// Four columns: 1 on the diagonal, and the entries (3, 1) and (3, 2) below it.
pub fn four_columns(alloc: Global) -> Result<Arrays, Fail> {
    let mut lists = Vec::new(alloc);
    push_list(&mut lists, alloc, &[0, 1, 3, 5, 6])?;
    push_list(&mut lists, alloc, &[0, 1, 3, 2, 3, 3])?;
    push_list(&mut lists, alloc, &[0, 1, 3, 5])?;
    Ok(Arrays::of(4, 6, lists))
}

// x[j] = x[j] / a.val[a.diag[j]], and then for each entry p of the column below its diagonal
// x[a.row[p]] = x[a.row[p]] - a.val[p] * x[j].
pub const FORWARD_BY_COLUMNS: [Part; 28] = [
    Var(1),
    Var(1),
    Read(4),
    Var(1),
    At(2),
    Read(3),
    Apply(Op::Quot),
    Set(4),
    Var(1),
    At(2),
    Plus(1),
    Var(1),
    Plus(1),
    At(0),
    Begin,
    Var(2),
    At(1),
    Var(2),
    At(1),
    Read(4),
    Var(2),
    Read(3),
    Var(1),
    Read(4),
    Apply(Op::Mul),
    Apply(Op::Sub),
    Set(4),
    For(2),
];

// The cells as digits of one number: for each its array and its place.
fn digits(cells: &[Cell]) -> u64 {
    let mut number: u64 = 0;
    for cell in cells {
        number = number
            .wrapping_mul(10)
            .wrapping_add(u64::from(cell.array.0))
            .wrapping_mul(10)
            .wrapping_add(u64::from(cell.at));
    }
    number
}

// What iteration 1 touches.
fn touched(rt: &impl Abort, alloc: Global, parts: &[Part]) -> Result<Touches, Fail> {
    let nest = by_columns(alloc, parts)?;
    let arrays = four_columns(alloc)?;
    assert!(rt; has_depth_within(nest.body.as_slice(), 5));
    Ok(touches(alloc, &nest, &arrays, RowId(1))?)
}

#[test]
fn cells_of_forward_substitution(rt: HostRuntime) -> Result<(), Fail> {
    let cells = touched(&rt, rt.alloc(), &FORWARD_BY_COLUMNS)?;
    assert_eq!(rt; digits(cells.reads.as_slice()), 4143);
    assert_eq!(rt; digits(cells.writes.as_slice()), 4143);
    Ok(())
}

// Place 4 lies outside x, and array 3 isn't written.
#[test]
fn no_cell_outside_written_arrays(rt: HostRuntime) -> Result<(), Fail> {
    let parts = [
        Num(4),
        Num(-1),
        Read(4),
        Num(2),
        Read(3),
        Apply(Op::Add),
        Set(4),
    ];
    let cells = touched(&rt, rt.alloc(), &parts)?;
    assert!(rt; cells.reads.is_empty() && cells.writes.is_empty());
    Ok(())
}

// Local 4 is no cell, though array 4 is one that is written; what a local keeps is read.
#[test]
fn a_local_is_no_cell(rt: HostRuntime) -> Result<(), Fail> {
    let parts = [
        Num(3),
        Read(4),
        Local(4),
        Apply(Op::Add),
        Keep(4),
        Num(2),
        Local(4),
        Set(4),
    ];
    let cells = touched(&rt, rt.alloc(), &parts)?;
    assert_eq!(rt; digits(cells.reads.as_slice()), 43);
    assert_eq!(rt; digits(cells.writes.as_slice()), 42);
    Ok(())
}
