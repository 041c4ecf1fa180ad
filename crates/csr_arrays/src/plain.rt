//! The arrays place by place: for each row and column all triples are looked at. It shares no step with
//! [`csr`](crate::csr), and takes time in rows times columns times triples.
ghost use Rattle.std.specs.Prelude.{◌≡◌, if◌then◌else◌, ◌==◌, ◌&&◌, ◌<◌, ◌≤◌, ◌^◌, ◌++◌, length, map, pos, IfOk, OnOk};
ghost use Rattle.std.specs.List.{All};
ghost use Rattle.wave_base.specs.Word.{wrapped_sum};
ghost use Rattle.csr_arrays.specs.Axes.{flipped, Inside};
ghost use Rattle.csr_arrays.specs.Arrays.{AreArrays, at_place, columns, value_at};

use crate::compressed::Compressed;
use mtx_read::triples::Triples;
use std::alloc::Global;
use wave_base::types::Memory;
use wave_base::w64;
use wave_base::words::Words;

/// The arrays of a square matrix by rows, as those of [`csr`](crate::csr::csr).
pub fn csr_by_places(alloc: Global, t: &Triples) -> Result<Compressed, Memory>
    requires square { t.now.columns ≡ t.now.rows }
    requires few { length t.now.entries ≤ 2 ^ 24 }
    requires inside { All (λ e. (e.0 < t.now.rows) × (e.1 < t.now.columns)) t.now.entries }
    ensures arrays { IfOk result (λ m. AreArrays t.now.rows t.now.entries m) }
    ensures few { IfOk result (λ m. length m.index ≤ length t.now.entries) }
{
    by_places(alloc, t.rows, t.entries.as_slice())
}

/// The arrays of a square matrix by columns, as those of [`csc`](crate::csr::csc).
pub fn csc_by_places(alloc: Global, t: &Triples) -> Result<Compressed, Memory>
    requires square { t.now.columns ≡ t.now.rows }
    requires few { length t.now.entries ≤ 2 ^ 24 }
    requires inside { All (λ e. (e.0 < t.now.rows) × (e.1 < t.now.columns)) t.now.entries }
    ensures arrays { IfOk result (λ m. AreArrays t.now.rows (map flipped t.now.entries) m) }
    ensures few { IfOk result (λ m. length m.index ≤ length t.now.entries) }
{
    let entries = exchanged(alloc, t.entries.as_slice())?;
    by_places(alloc, t.rows, entries.as_slice())
}

/// The triples with row and column exchanged.
fn exchanged(alloc: Global, entries: &[(u32, u32, i64)]) -> Result<Vec<(u32, u32, i64)>, Memory>
    ensures { IfOk result (λ v. v.items ≡ map flipped entries.now) }
{
    let mut flipped = Vec::with_capacity(alloc, entries.len())?;
    for (row, column, value) in entries {
        flipped.push((*column, *row, *value))?;
    }
    Ok(flipped)
}

/// The arrays, row by row.
fn by_places(alloc: Global, n: u32, entries: &[(u32, u32, i64)]) -> Result<Compressed, Memory>
    requires few { length entries.now ≤ 2 ^ 24 }
    requires inside { Inside n entries.now }
    ensures arrays { IfOk result (λ m. AreArrays n entries.now m) }
    ensures few { IfOk result (λ m. length m.index ≤ length entries.now) }
{
    let mut m = Compressed {
        ptr: Words::from_vec(Vec::new(alloc)),
        index: Words::from_vec(Vec::new(alloc)),
        diag: Words::from_vec(Vec::new(alloc)),
        val: Words::from_vec(Vec::new(alloc)),
    };
    m.ptr.push(0)?;
    for row in 0..n {
        let before = m.index.len() + stored_before(entries, row);
        m.diag.push(before as i64)?;
        push_places(entries, n, row, &mut m)?;
        m.ptr.push(m.index.len() as i64)?;
    }
    Ok(m)
}

/// How many places of a row are stored before its diagonal.
fn stored_before(entries: &[(u32, u32, i64)], row: u32) -> usize
    ensures is { result ≡ length (columns row entries.now row) }
    ensures few { result ≤ row }
{
    let mut stored = 0;
    for column in 0..row {
        if 0 < count_at(entries, row, column) {
            stored += 1;
        }
    }
    stored
}

/// Puts the stored places of a row, column by column.
fn push_places(
    entries: &[(u32, u32, i64)],
    n: u32,
    row: u32,
    m: &mut Compressed,
) -> Result<(), Memory>
    ensures index { OnOk result (m.new.index ≡ m.old.index ++ map pos (columns n entries.now row)) }
    ensures val { OnOk result (m.new.val ≡ m.old.val ++ map (value_at entries.now row) (columns n entries.now row)) }
    ensures ptr { OnOk result (m.new.ptr ≡ m.old.ptr) }
    ensures diag { OnOk result (m.new.diag ≡ m.old.diag) }
{
    for column in 0..n {
        if 0 < count_at(entries, row, column) {
            m.index.push(i64::from(column))?;
            m.val.push(sum_at(entries, row, column))?;
        }
    }
    Ok(())
}

fn is_at(entry: (u32, u32, i64), row: u32, column: u32) -> bool
    ensures { result ≡ (entry.0 == row && entry.1 == column) }
{
    entry.0 == row && entry.1 == column
}

/// How many triples are at a place.
fn count_at(entries: &[(u32, u32, i64)], row: u32, column: u32) -> usize
    ensures { result ≡ length (at_place entries.now row column) }
{
    let mut count = 0;
    for entry in entries {
        if is_at(*entry, row, column) {
            count += 1;
        }
    }
    count
}

fn plus_where(there: bool, sum: i64, value: i64) -> i64
    ensures { result ≡ (if there then wrapped_sum sum value else sum) }
{
    if there { w64::add(sum, value) } else { sum }
}

/// The sum of the values at a place.
fn sum_at(entries: &[(u32, u32, i64)], row: u32, column: u32) -> i64
    ensures { result ≡ value_at entries.now row column }
{
    let mut sum = 0;
    for entry in entries {
        sum = plus_where(is_at(*entry, row, column), sum, entry.2);
    }
    sum
}
