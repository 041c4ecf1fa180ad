// The pairs of three rows, counted by hand.
use crate::run::pairs_alone;
use inspection_samples::matrices::three_rows;
use inspection_samples::plans::{by_columns, by_values};
use inspector_run::split::pairs_split;
use std::alloc::Global;
use std::test::Fail;
use std::thread::Threads;
use wave_base::types::RowId;

const FIRST: (RowId, RowId) = (RowId(0), RowId(1));

const SECOND: (RowId, RowId) = (RowId(1), RowId(2));

fn columns(alloc: Global) -> Result<Vec<(RowId, RowId)>, Fail> {
    let plan = by_columns(alloc)?;
    let arrays = three_rows(alloc, &[])?;
    Ok(pairs_alone(alloc, &plan, &arrays)?)
}

fn alike(alloc: Global, values: &[i64]) -> Result<Vec<(RowId, RowId)>, Fail> {
    let plan = by_values(alloc)?;
    let arrays = three_rows(alloc, values)?;
    Ok(pairs_alone(alloc, &plan, &arrays)?)
}

fn columns_split(rt: &(impl Threads + Sync), alloc: Global) -> Result<Vec<(RowId, RowId)>, Fail> {
    let plan = by_columns(alloc)?;
    let arrays = three_rows(alloc, &[])?;
    Ok(pairs_split(rt, alloc, &plan, &arrays)?)
}

#[test]
fn rows_before_by_columns(rt: HostRuntime) -> Result<(), Fail> {
    let pairs = columns(rt.alloc())?;
    assert_eq!(rt; pairs.as_slice(), [FIRST, SECOND].as_slice());
    Ok(())
}

#[test]
fn rows_before_by_threads(rt: HostRuntime) -> Result<(), Fail> {
    let pairs = columns_split(&rt, rt.alloc())?;
    assert_eq!(rt; pairs.as_slice(), [FIRST, SECOND].as_slice());
    Ok(())
}

// Values from 0 to n are counted, and others are sorted.
#[test]
fn rows_alike_by_counting(rt: HostRuntime) -> Result<(), Fail> {
    let pairs = alike(rt.alloc(), &[1, 1, 0])?;
    assert_eq!(rt; pairs.as_slice(), [FIRST].as_slice());
    Ok(())
}

#[test]
fn rows_alike_by_sorting(rt: HostRuntime) -> Result<(), Fail> {
    let pairs = alike(rt.alloc(), &[9, -7, -7])?;
    assert_eq!(rt; pairs.as_slice(), [SECOND].as_slice());
    Ok(())
}

#[test]
fn no_rows_alike(rt: HostRuntime) -> Result<(), Fail> {
    let pairs = alike(rt.alloc(), &[2, 0, 1])?;
    assert_eq!(rt; pairs.len(), 0);
    Ok(())
}
