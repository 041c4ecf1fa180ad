// The arrays, row by row.
ghost use Rattle.std.specs.Prelude.{◌≡◌, ℕ, List, ◌+◌, ◌<◌, ◌≤◌, ◌^◌, [], length, map, IfOk, OnOk};
ghost use Rattle.csr_arrays.specs.Axes.{Triple, turned, Inside};
ghost use Rattle.csr_arrays.specs.Arrays.{FirstRows};
ghost use Rattle.csr_arrays.specs.Rows.{in_row};

use crate::axis::Axis;
use crate::bucketed::by_rows;
use crate::compressed::Compressed;
use crate::row::{diagonal_of, put_row};
use std::alloc::Global;
use wave_base::types::Memory;
use wave_base::words::Words;

/// The arrays of no rows, with room for some.
fn no_rows(alloc: Global, n: u32, places: usize) -> Result<Compressed, Memory>
    ensures rows { IfOk result (λ m. (k : ℕ) (ts : List Triple) → FirstRows k 0 ts m.ptr m.index m.diag m.val) }
    ensures none { IfOk result (λ m. m.index ≡ []) }
{
    let mut ptr = Words::with_room(alloc, n as usize + 1)?;
    ptr.push(0)?;
    Ok(Compressed {
        ptr,
        index: Words::with_room(alloc, places)?,
        diag: Words::with_room(alloc, n as usize)?,
        val: Words::with_room(alloc, places)?,
    })
}

/// One row more, from its cells. The spare list is for its use alone.
fn add_row(
    row: u32,
    cells: &[(u32, i64)],
    spare: &mut Vec<(u32, i64)>,
    m: &mut Compressed,
) -> Result<(), Memory>
    requires { length m.old.index + length cells.now ≤ 2 ^ 24 }
    ensures rows { OnOk result ((n : ℕ) (ts : List Triple) → Inside n ts → cells.now ≡ in_row ts row → FirstRows n row ts m.old.ptr m.old.index m.old.diag m.old.val
        → FirstRows n (row + 1) ts m.new.ptr m.new.index m.new.diag m.new.val) }
    ensures few { OnOk result (length m.new.index ≤ length m.old.index + length cells.now) }
{
    let start = m.index.len();
    put_row(cells, spare, &mut m.index, &mut m.val)?;
    m.diag.push(diagonal_of(row, &m.index, start) as i64)?;
    m.ptr.push(m.index.len() as i64)?;
    Ok(())
}

/// The arrays of a square matrix with `n` rows, along an axis.
pub fn compress(
    alloc: Global,
    axis: Axis,
    n: u32,
    entries: &[(u32, u32, i64)],
) -> Result<Compressed, Memory>
    requires few { length entries.now ≤ 2 ^ 24 }
    requires inside { Inside n entries.now }
    ensures arrays { IfOk result (λ m. FirstRows n n (map (turned axis) entries.now) m.ptr m.index m.diag m.val) }
    ensures few { IfOk result (λ m. length m.index ≤ length entries.now) }
{
    let buckets = by_rows(alloc, axis, n, entries)?;
    let mut m = no_rows(alloc, n, entries.len())?;
    let mut spare = Vec::new(alloc);
    let mut rest = buckets.cells.as_slice();
    let mut start = 0;
    for row in 0..n {
        let end = buckets.ends[row as usize];
        let (mine, others) = rest.split_at((end - start) as usize);
        add_row(row, mine, &mut spare, &mut m)?;
        rest = others;
        start = end;
    }
    Ok(m)
}
