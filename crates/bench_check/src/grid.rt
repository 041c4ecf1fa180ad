// The index arrays of the 5-point grid by rows, with the properties of forward substitution.
use crate::made::Made;
use loop_core::arrays::Arrays;
use loop_core::decl::{PropDecl, PropKind};
use loop_core::nest::{Atom, Term};
use std::alloc::Global;
use wave_base::types::{ArrayId, Memory};
use wave_base::words::Words;

const PTR: ArrayId = ArrayId(0);

const COL: ArrayId = ArrayId(1);

const DIAG: ArrayId = ArrayId(2);

/// The grid of so many points a side: a row for each point, with entries at the point and at its
/// neighbours.
pub fn grid(alloc: Global, side: u32) -> Result<Made, Memory> {
    let rows = side.saturating_mul(side);
    let mut lists = Lists::new(alloc)?;
    for row in 0..rows {
        lists.push_row(side, rows, row)?;
    }
    Ok(Made {
        arrays: lists.bound(alloc, rows)?,
        props: props(alloc)?,
    })
}

#[derive(Drop)]
struct Lists {
    ptr: Vec<i64>,
    col: Vec<i64>,
    diag: Vec<i64>,
}

fn length(list: &Vec<i64>) -> i64 {
    i64::try_from(list.len()).unwrap_or(i64::MAX)
}

impl Lists {
    fn new(alloc: Global) -> Result<Lists, Memory> {
        let mut ptr = Vec::new(alloc);
        ptr.push(0)?;
        Ok(Lists {
            ptr,
            col: Vec::new(alloc),
            diag: Vec::new(alloc),
        })
    }

    fn push_row(&mut self, side: u32, rows: u32, row: u32) -> Result<(), Memory> {
        let (here, width) = (i64::from(row), i64::from(side));
        let across = row.checked_rem(side).unwrap_or(0);
        self.push_where(row >= side, here - width)?;
        self.push_where(across > 0, here - 1)?;
        let diagonal = length(&self.col);
        self.diag.push(diagonal)?;
        self.push_where(true, here)?;
        self.push_where(across < side.saturating_sub(1), here + 1)?;
        self.push_where(row < rows.saturating_sub(side), here + width)?;
        let end = length(&self.col);
        self.ptr.push(end)?;
        Ok(())
    }

    fn push_where(&mut self, is_there: bool, column: i64) -> Result<(), Memory> {
        if is_there {
            self.col.push(column)?;
        }
        Ok(())
    }

    fn bound(self, alloc: Global, rows: u32) -> Result<Arrays, Memory> {
        let Lists { ptr, col, diag } = self;
        let stored = u32::try_from(col.len()).unwrap_or(u32::MAX);
        let mut lists = Vec::new(alloc);
        for list in [ptr, col, diag] {
            lists.push(Words::from_vec(list))?;
        }
        Ok(Arrays::of(rows, stored, lists))
    }
}

fn bound(atom: Atom, plus: i64) -> Term {
    Term { atom, plus }
}

fn props(alloc: Global) -> Result<Vec<PropDecl>, Memory> {
    let zero = bound(Atom::Zero, 0);
    let places = PropKind::Range(PTR, zero, bound(Atom::Nnz, 1));
    let zero = bound(Atom::Zero, 0);
    let columns = PropKind::Range(COL, zero, bound(Atom::N, 0));
    let mut props = Vec::new(alloc);
    for kind in [
        places,
        columns,
        PropKind::Rising(PTR),
        PropKind::Sorted(COL, PTR),
        PropKind::Diagonal(DIAG, COL, PTR),
    ] {
        props.push(PropDecl { line: 1, kind })?;
    }
    Ok(props)
}
