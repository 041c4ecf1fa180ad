// The plain way to the levels, to the rows of each level and to the chain: numbers are tried one after
// another, and rows are looked for among all rows. It says what the quick way has to give, in a body
// that needs no buckets and no greatest number.
ghost use Rattle.std.specs.Prelude.{◌≡◌, ℕ, ◌+◌, ◌<◌, ◌≤◌, ◌^◌, ◌↔◌, All, Contains, length, map, slice_index, IfOk, IsTrue};
ghost use Rattle.wave_base.specs.declared.types.RowId.{RowId};
ghost use Rattle.row_graph.specs.Predecessors.{IsGraph, before};
ghost use Rattle.wave_levels.specs.Chains.{IsLeastChain, IsLongest};
ghost use Rattle.wave_levels.specs.Levels.{AreLevels, above, level_at, rows_at};

use crate::grouped::Levels;
use row_graph::lists::Lists;
use row_graph::plain::is_listed;
use row_graph::preds::Preds;
use std::alloc::Global;
use wave_base::types::{Memory, RowId};

/// The level of each row and the rows of each level, as `levels` gives them, by a search.
pub fn levels_by_search(alloc: Global, preds: &Preds) -> Result<Levels, Memory>
    ensures levels { IfOk result (λ levels. AreLevels preds.now levels) }
    ensures longest { IfOk result (λ levels. (j : RowId) → j.0 < length preds.now
        → IsLongest preds.now j (level_at levels j)) }
{
    let levels = levels_by_trial(alloc, preds)?;
    let mut rows = Lists::none(alloc)?;
    for level in 0..first_above(levels.as_slice(), preds.rows()) {
        rows = rows.with_list(rows_of(alloc, levels.as_slice(), level)?.as_slice())?;
    }
    Ok(Levels { levels, rows })
}

// The level of each row: the first number above the levels of all rows before it. The row's own number
// is above them too.
fn levels_by_trial(alloc: Global, preds: &Preds) -> Result<Vec<u32>, Memory>
    ensures levels { IfOk result (λ levels. AreLevels preds.now levels.items) }
    ensures low { IfOk result (λ levels. (k : ℕ) → k < length preds.now → slice_index levels.items k ≤ k) }
    ensures graph { IsGraph preds.now }
{
    let rows = preds.rows();
    let mut levels = Vec::new(alloc);
    for row in 0..rows {
        let before = levels_of(alloc, levels.as_slice(), preds.before(RowId(row)))?;
        levels.push(first_above(before.as_slice(), row))?;
    }
    Ok(levels)
}

// The levels of some rows.
fn levels_of(alloc: Global, levels: &[u32], rows: &[RowId]) -> Result<Vec<u32>, Memory>
    requires { All (λ (r : RowId). r.0 < length levels.now) rows.now }
    ensures { IfOk result (λ some. some.items ≡ map (level_at levels.now) rows.now) }
{
    let mut some = Vec::new(alloc);
    for row in rows {
        some.push(levels[row.0 as usize])?;
    }
    Ok(some)
}

// The first number above all of some numbers, where `most` is above them.
fn first_above(numbers: &[u32], most: u32) -> u32
    requires { above numbers.now ≤ most }
    ensures { result ≡ above numbers.now }
{
    for number in 0..most {
        if is_above(numbers, number) {
            return number;
        }
    }
    most
}

// Whether a number is above all of some numbers.
fn is_above(numbers: &[u32], number: u32) -> bool
    ensures { IsTrue result ↔ (above numbers.now ≤ number) }
{
    for other in numbers {
        if *other >= number {
            return false;
        }
    }
    true
}

// The rows of one level, ascending.
fn rows_of(alloc: Global, levels: &[u32], level: u32) -> Result<Vec<RowId>, Memory>
    requires { length levels.now < 2 ^ 32 }
    ensures { IfOk result (λ rows. rows.items ≡ rows_at levels.now level) }
{
    let mut rows = Vec::new(alloc);
    for at in 0..levels.len() {
        if levels[at] == level {
            rows.push(RowId(at as u32))?;
        }
    }
    Ok(rows)
}

/// A longest chain, as `chain` gives it, by a search of all rows for each of its rows.
pub fn chain_by_search(alloc: Global, preds: &Preds, levels: &Levels) -> Result<Vec<RowId>, Memory>
    requires { AreLevels preds.now levels.now }
    ensures { IfOk result (λ rows. IsLeastChain preds.now levels.now rows.items) }
{
    let count = levels.count();
    if count == 0 {
        return Ok(Vec::new(alloc));
    }
    let last = row_of_level(preds, levels, count - 1);
    chain_back(alloc, preds, levels, last)
}

// The first row of the greatest level.
fn row_of_level(preds: &Preds, levels: &Levels, level: u32) -> RowId
    requires levels { AreLevels preds.now levels.now }
    requires greatest { above levels.now ≡ level + 1 }
    ensures row { result.0 < length levels.now }
    ensures level { level_at levels.now result ≡ level }
    ensures least { (r : RowId) → r.0 < length levels.now → level_at levels.now r ≡ level → result.0 ≤ r.0 }
{
    for row in 0..preds.rows() {
        if levels.of(RowId(row)) == level {
            return RowId(row);
        }
    }
    unreachable!()
}

// The chain that ends at a row of the greatest level.
fn chain_back(
    alloc: Global,
    preds: &Preds,
    levels: &Levels,
    last: RowId,
) -> Result<Vec<RowId>, Memory>
    requires levels { AreLevels preds.now levels.now }
    requires row { last.0 < length levels.now }
    requires greatest { level_at levels.now last + 1 ≡ above levels.now }
    requires least { (r : RowId) → r.0 < length levels.now
        → level_at levels.now r + 1 ≡ above levels.now → last.0 ≤ r.0 }
    ensures { IfOk result (λ rows. IsLeastChain preds.now levels.now rows.items) }
{
    let count = levels.count();
    let mut rows = vec![in alloc; last; count as usize]?;
    for back in 1..count {
        let level = count - 1 - back;
        let next = rows[level as usize + 1];
        rows[level as usize] = row_before(preds, levels, next, level);
    }
    Ok(rows)
}

// The first row of a level that stands before a row, where there is one.
fn row_before(preds: &Preds, levels: &Levels, next: RowId, level: u32) -> RowId
    requires levels { AreLevels preds.now levels.now }
    requires next { next.0 < length levels.now }
    requires some { (i : RowId) × Contains (before preds.now next.0) i × (level_at levels.now i ≡ level) }
    ensures lesser { result.0 < next.0 }
    ensures one { Contains (before preds.now next.0) result }
    ensures level { level_at levels.now result ≡ level }
    ensures least { (i : RowId) → Contains (before preds.now next.0) i
        → level_at levels.now i ≡ level → result.0 ≤ i.0 }
{
    let _rows = preds.rows();
    for row in 0..next.0 {
        if is_step(preds, levels, RowId(row), next, level) {
            return RowId(row);
        }
    }
    unreachable!()
}

// Whether a row has a level and stands before another.
fn is_step(preds: &Preds, levels: &Levels, row: RowId, next: RowId, level: u32) -> bool
    requires levels { AreLevels preds.now levels.now }
    requires next { next.0 < length levels.now }
    requires row { row.0 < next.0 }
    ensures { IsTrue result ↔ (Contains (before preds.now next.0) row × (level_at levels.now row ≡ level)) }
{
    is_listed(preds.before(next), row) && levels.of(row) == level
}
