// The pairs of grids of thousands of rows, by one thread and by several.
use crate::run::pairs_alone;
use inspection_samples::matrices::grid;
use inspection_samples::plans::{by_columns, by_values};
use inspector_run::split::pairs_split;
use std::alloc::Global;
use std::test::Fail;
use std::thread::Threads;
use wave_base::types::RowId;

// Enough rows for three pieces of the outer loop.
const SIDE: u32 = 60;

fn columns(alloc: Global, side: u32) -> Result<Vec<(RowId, RowId)>, Fail> {
    let plan = by_columns(alloc)?;
    let arrays = grid(alloc, side)?;
    Ok(pairs_alone(alloc, &plan, &arrays)?)
}

fn columns_split(
    rt: &(impl Threads + Sync),
    alloc: Global,
    side: u32,
) -> Result<Vec<(RowId, RowId)>, Fail> {
    let plan = by_columns(alloc)?;
    let arrays = grid(alloc, side)?;
    Ok(pairs_split(rt, alloc, &plan, &arrays)?)
}

fn alike(alloc: Global, side: u32) -> Result<Vec<(RowId, RowId)>, Fail> {
    let plan = by_values(alloc)?;
    let arrays = grid(alloc, side)?;
    Ok(pairs_alone(alloc, &plan, &arrays)?)
}

fn alike_split(
    rt: &(impl Threads + Sync),
    alloc: Global,
    side: u32,
) -> Result<Vec<(RowId, RowId)>, Fail> {
    let plan = by_values(alloc)?;
    let arrays = grid(alloc, side)?;
    Ok(pairs_split(rt, alloc, &plan, &arrays)?)
}

// A grid has an edge between each two neighbours, across and along.
#[test]
fn edges_of_a_grid(rt: HostRuntime) -> Result<(), Fail> {
    let pairs = columns(rt.alloc(), SIDE)?;
    assert_eq!(rt; pairs.len(), 7_080);
    assert_eq!(rt; pairs.first().copied(), Some((RowId(0), RowId(1))));
    assert_eq!(rt; pairs.last().copied(), Some((RowId(3_598), RowId(3_599))));
    Ok(())
}

#[test]
fn edges_by_threads_are_the_same(rt: HostRuntime) -> Result<(), Fail> {
    let alone = columns(rt.alloc(), SIDE)?;
    let split = columns_split(&rt, rt.alloc(), SIDE)?;
    assert_eq!(rt; split.as_slice(), alone.as_slice());
    Ok(())
}

// Each two rows have one half.
#[test]
fn halves_by_threads_are_the_same(rt: HostRuntime) -> Result<(), Fail> {
    let alone = alike(rt.alloc(), SIDE)?;
    let split = alike_split(&rt, rt.alloc(), SIDE)?;
    assert_eq!(rt; alone.len(), 1_800);
    assert_eq!(rt; split.as_slice(), alone.as_slice());
    Ok(())
}

#[test]
fn no_rows_by_threads(rt: HostRuntime) -> Result<(), Fail> {
    let pairs = columns_split(&rt, rt.alloc(), 0)?;
    assert_eq!(rt; pairs.len(), 0);
    Ok(())
}
