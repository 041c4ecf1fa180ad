// The matrix of a square grid.
ghost use Rattle.std.specs.Prelude.{◌≡◌, ◌<◌, ◌≤◌, ◌++◌, IfOk, OnOk};
ghost use Rattle.wave_gen.specs.Texts.{entries_text};
ghost use Rattle.wave_gen.specs.Grid.{place, neighbour, point, row_entries, grid_entries, grid_text};

use crate::text::{put_entry, put_head};
use std::alloc::Global;
use wave_base::types::Memory;

/// The text of the matrix of a square grid of `k` rows of `k` points, which has a row for each point,
/// grid row by grid row: -1 for each neighbour above, left, right and below that exists, and 4 for the
/// point itself. It fails out of memory alone. The work is linear in the text.
pub fn grid(alloc: Global, k: u32) -> Result<Vec<u8>, Memory>
    requires some { 1 ≤ k }
    requires few { k ≤ 400 }
    ensures { IfOk result (λ text. text.items ≡ grid_text k) }
{
    let mut text = Vec::new(alloc);
    put_head(
        &mut text,
        u64::from(k * k),
        u64::from(k * k + 4 * k * (k - 1)),
    )?;
    put_rows(&mut text, k)?;
    Ok(text)
}

fn put_rows(text: &mut Vec<u8>, k: u32) -> Result<(), Memory>
    requires few { k ≤ 400 }
    ensures { OnOk result (text.new.items ≡ text.old.items ++ entries_text (grid_entries k)) }
{
    for row in 0..k {
        put_row(text, k, row)?;
    }
    Ok(())
}

/// Puts the entries of the points of one grid row.
fn put_row(text: &mut Vec<u8>, k: u32, row: u32) -> Result<(), Memory>
    requires few { k ≤ 400 }
    requires inside { row < k }
    ensures { OnOk result (text.new.items ≡ text.old.items ++ entries_text (row_entries k row)) }
{
    for column in 0..k {
        put_point(text, k, row, column)?;
    }
    Ok(())
}

/// Puts the entries of one point.
fn put_point(text: &mut Vec<u8>, k: u32, row: u32, column: u32) -> Result<(), Memory>
    requires few { k ≤ 400 }
    requires row { row < k }
    requires column { column < k }
    ensures { OnOk result (text.new.items ≡ text.old.items ++ entries_text (point k row column)) }
{
    let at = place(k, row, column);
    put_neighbour(text, 0 < row, at, place(k, row.saturating_sub(1), column))?;
    put_neighbour(
        text,
        0 < column,
        at,
        place(k, row, column.saturating_sub(1)),
    )?;
    put_entry(text, at, at, 4)?;
    put_neighbour(text, column + 1 < k, at, place(k, row, column + 1))?;
    put_neighbour(text, row + 1 < k, at, place(k, row + 1, column))
}

/// The number of a point.
fn place(k: u32, row: u32, column: u32) -> u32
    requires few { k ≤ 400 }
    requires row { row ≤ k }
    requires column { column ≤ k }
    ensures { result ≡ place k row column }
{
    row * k + column
}

/// Puts the entry of a neighbour, if there is one.
fn put_neighbour(text: &mut Vec<u8>, exists: bool, at: u32, other: u32) -> Result<(), Memory>
    ensures { OnOk result (text.new.items ≡ text.old.items ++ entries_text (neighbour exists at other)) }
{
    if exists {
        put_entry(text, at, other, -1)?;
    }
    Ok(())
}
