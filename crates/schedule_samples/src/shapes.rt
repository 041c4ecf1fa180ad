// Graphs of many rows, made from counters.
ghost use Rattle.std.specs.Prelude.{◌<◌, ◌≤◌, ◌^◌, All, IfOk, OnOk};
ghost use Rattle.wave_base.specs.declared.types.RowId.{RowId};

use std::alloc::{AllocError, Global};
use wave_base::types::RowId;

#[derive(Clone, Copy, PartialEq, Eq)]
pub enum Shape {
    /// Each row depends on the three rows before it.
    Chain,
    /// Each row is a point of a grid, and depends on the points above it and left of it.
    Grid,
    /// All rows but the first four depend on these.
    Wide,
    /// Each row depends on seven rows before it, which are drawn by a counter.
    Random,
}

/// Four pairs for each row but the first, seven where they are drawn, with repeats.
pub fn pairs(
    alloc: Global,
    shape: Shape,
    rows: u32,
    columns: u32,
) -> Result<Vec<(RowId, RowId)>, AllocError>
    requires some { 0 < rows }
    requires few { rows ≤ 2 ^ 24 }
    requires columns { 0 < columns }
    ensures earlier { IfOk result (λ pairs. All (λ (p : RowId × RowId). p.0.0 < p.1.0) pairs.items) }
    ensures below { IfOk result (λ pairs. All (λ (p : RowId × RowId). p.1.0 < rows) pairs.items) }
{
    let mut pairs = Vec::with_capacity(alloc, many_of(shape, rows) as usize)?;
    for row in 1..rows {
        push_pairs(&mut pairs, shape, row, rows, columns)?;
    }
    Ok(pairs)
}

// How many pairs all rows have.
fn many_of(shape: Shape, rows: u32) -> u32
    requires some { 0 < rows }
    requires few { rows ≤ 2 ^ 24 }
{
    if shape == Shape::Random {
        7 * (rows - 1)
    } else {
        4 * (rows - 1)
    }
}

// Appends the pairs of one row below `rows`.
fn push_pairs(
    into: &mut Vec<(RowId, RowId)>,
    shape: Shape,
    row: u32,
    rows: u32,
    columns: u32,
) -> Result<(), AllocError>
    requires row { 0 < row }
    requires within { row < rows }
    requires columns { 0 < columns }
    requires earlier { All (λ (p : RowId × RowId). p.0.0 < p.1.0) into.old.items }
    requires below { All (λ (p : RowId × RowId). p.1.0 < rows) into.old.items }
    ensures earlier { OnOk result (All (λ (p : RowId × RowId). p.0.0 < p.1.0) into.new.items) }
    ensures below { OnOk result (All (λ (p : RowId × RowId). p.1.0 < rows) into.new.items) }
{
    for number in 0..pairs_of_each(shape) {
        into.push((RowId(first(shape, row, columns, number)), RowId(row)))?;
    }
    Ok(())
}

// How many pairs a row has.
fn pairs_of_each(shape: Shape) -> u32
    ensures { result ≤ 7 }
{
    if shape == Shape::Random { 7 } else { 4 }
}

// The first row of one of a row's pairs.
fn first(shape: Shape, row: u32, columns: u32, number: u32) -> u32
    requires row { 0 < row }
    requires columns { 0 < columns }
    requires number { number < 7 }
    ensures { result < row }
{
    match shape {
        Shape::Chain => row.saturating_sub(1 + number % 3),
        Shape::Grid => grid_neighbour(row, columns, number % 2 == 0),
        Shape::Wide => number.min(row - 1),
        Shape::Random => drawn(row, number),
    }
}

// A row before a row, drawn by the number of the pair.
fn drawn(row: u32, number: u32) -> u32
    requires row { 0 < row }
    ensures { result < row }
{
    let mut state = row.wrapping_mul(7).wrapping_add(number);
    state = (state ^ state >> 16).wrapping_mul(2146121005);
    state = (state ^ state >> 15).wrapping_mul(2221713035);
    (state ^ state >> 16) % row
}

// The point above a point, or left of it, where there is one.
fn grid_neighbour(row: u32, columns: u32, above: bool) -> u32
    requires row { 0 < row }
    requires columns { 0 < columns }
    ensures { result < row }
{
    let has_above = row >= columns;
    let has_left = row % columns != 0;
    if has_above && (above || !has_left) {
        row - columns
    } else {
        row - 1
    }
}
