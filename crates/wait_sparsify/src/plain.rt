// The plain way to the waits: all tasks are tried. It says what the quick way has to give, in a body
// that needs no stamps and no buckets.
ghost use Rattle.std.specs.Prelude.{◌≡◌, ◌<◌, ◌+◌, ◌^◌, ◌↔◌, [], All, Contains, length, slice_index_or, IfOk, IsTrue};
ghost use Rattle.wave_base.specs.declared.types.RowId.{RowId};
ghost use Rattle.row_graph.specs.Rows.{row};
ghost use Rattle.sched_types.specs.Fits.{Fits};
ghost use Rattle.sched_types.specs.Kept.{HasKeptWaits};
ghost use Rattle.wait_sparsify.specs.Depends.{ArePlaced, AreLevelled, CountsCross, Depends};
ghost use Rattle.wait_sparsify.specs.Searched.{AreSelected, AreSelectedLists, Crosses, IsBetween, IsNeeded, IsNext, Joins, SomeBefore, SomeBetween};

use crate::attached::attach;
use crate::numbered::{rows_of_each, seats_of, small};
use row_graph::lists::Lists;
use row_graph::plain::is_listed;
use row_graph::preds::Preds;
use sched_types::sched::{Sched, Tasks};
use std::alloc::Global;
use wave_base::types::{Memory, RowId};

/// The tasks with their waits and the number of cross pairs, as `sparsify` gives them, by a test over
/// all tasks for each two.
pub fn sparsify_by_search(
    alloc: Global,
    preds: &Preds,
    tasks: Tasks,
) -> Result<(Sched, u64), Memory>
    requires { ArePlaced (length preds.now) tasks.workers }
    ensures kept { IfOk result (λ made. HasKeptWaits (Depends preds.now) tasks.workers made.0.workers) }
    ensures cross { IfOk result (λ made. CountsCross (Depends preds.now) tasks.workers made.1) }
    ensures fits { IfOk result (λ made. AreLevelled (Depends preds.now) tasks.workers
        → Fits (length preds.now) (Depends preds.now) made.0.workers) }
{
    let lists = tasks.workers.as_slice();
    let seats = seats_of(alloc, lists)?;
    let rows = rows_of_each(alloc, lists)?;
    let many = small(rows.len())?;
    let _rows = preds.rows();
    let cross = cross_by_search(alloc, preds, seats.owners.as_slice(), &rows, many)?;
    let kept = kept_by_search(alloc, seats.owners.as_slice(), &cross, many)?;
    let workers = attach(alloc, lists, &seats, &kept)?;
    Ok((Sched { workers }, cross.total() as u64))
}

// For each task all tasks that are crossed with it.
fn cross_by_search(
    alloc: Global,
    preds: &Preds,
    owners: &[u32],
    rows: &Lists,
    many: u32,
) -> Result<Lists, Memory>
    requires within { All (λ list. All (λ (r : RowId). r.0 < length preds.now) list) rows.now }
    requires owners { length owners.now ≡ length rows.now }
    requires many { many ≡ length rows.now }
    ensures { IfOk result (λ cross. AreSelectedLists (Crosses preds.now owners.now rows.now) many cross) }
{
    let mut cross = Lists::none(alloc)?;
    for task in 0..many {
        let firsts = crossed_with(alloc, preds, owners, rows, task)?;
        cross = cross.with_list(firsts.as_slice())?;
    }
    Ok(cross)
}

// All tasks that are crossed with a later one.
fn crossed_with(
    alloc: Global,
    preds: &Preds,
    owners: &[u32],
    rows: &Lists,
    task: u32,
) -> Result<Vec<RowId>, Memory>
    requires within { All (λ list. All (λ (r : RowId). r.0 < length preds.now) list) rows.now }
    requires owners { length owners.now ≡ length rows.now }
    requires few { length rows.now < 2 ^ 32 }
    requires task { task < length rows.now }
    ensures { IfOk result (λ firsts. AreSelected (Crosses preds.now owners.now rows.now task)
        (length rows.now) firsts.items) }
{
    let mut firsts = Vec::new(alloc);
    for first in 0..rows.len() {
        if are_crossed(preds, owners, rows, first, task as usize) {
            firsts.push(RowId(first as u32))?;
        }
    }
    Ok(firsts)
}

// Whether two tasks are on different workers, and a row of the second depends on one of the first.
fn are_crossed(preds: &Preds, owners: &[u32], rows: &Lists, first: usize, second: usize) -> bool
    requires within { All (λ list. All (λ (r : RowId). r.0 < length preds.now) list) rows.now }
    requires owners { length owners.now ≡ length rows.now }
    requires first { first < length rows.now }
    requires second { second < length rows.now }
    ensures { IsTrue result ↔ Crosses preds.now owners.now rows.now second first }
{
    owners[first] != owners[second] && are_joined(preds, rows.list(first), rows.list(second))
}

// Whether some row of the one list stands before some row of the other.
fn are_joined(preds: &Preds, firsts: &[RowId], seconds: &[RowId]) -> bool
    requires { All (λ (r : RowId). r.0 < length preds.now) seconds.now }
    ensures { IsTrue result ↔ Joins preds.now firsts.now seconds.now }
{
    for row in seconds {
        if some_before(preds.before(*row), firsts) {
            return true;
        }
    }
    false
}

// Whether one of some rows is among those before a row.
fn some_before(before: &[RowId], rows: &[RowId]) -> bool
    ensures { IsTrue result ↔ SomeBefore before.now rows.now }
{
    for row in rows {
        if is_listed(before, *row) {
            return true;
        }
    }
    false
}

// For each task all tasks that it has to wait for.
fn kept_by_search(alloc: Global, owners: &[u32], cross: &Lists, many: u32) -> Result<Lists, Memory>
    requires owners { length owners.now ≡ length cross.now }
    requires many { many ≡ length cross.now }
    ensures { IfOk result (λ kept. AreSelectedLists (IsNeeded cross.now owners.now) many kept) }
{
    let mut kept = Lists::none(alloc)?;
    for task in 0..many {
        let firsts = needed_by(alloc, owners, cross, task)?;
        kept = kept.with_list(firsts.as_slice())?;
    }
    Ok(kept)
}

// All tasks that a task has to wait for.
fn needed_by(alloc: Global, owners: &[u32], cross: &Lists, task: u32) -> Result<Vec<RowId>, Memory>
    requires owners { length owners.now ≡ length cross.now }
    requires few { length cross.now < 2 ^ 32 }
    requires task { task < length cross.now }
    ensures { IfOk result (λ firsts. AreSelected (IsNeeded cross.now owners.now task)
        (length cross.now) firsts.items) }
{
    let mut firsts = Vec::new(alloc);
    for first in 0..cross.len() {
        if is_needed(owners, cross, first as u32, task) {
            firsts.push(RowId(first as u32))?;
        }
    }
    Ok(firsts)
}

// Whether a task is crossed with another, and none is between.
fn is_needed(owners: &[u32], cross: &Lists, first: u32, second: u32) -> bool
    requires owners { length owners.now ≡ length cross.now }
    requires few { length cross.now < 2 ^ 32 }
    requires first { first < length cross.now }
    requires second { second < length cross.now }
    ensures { IsTrue result ↔ IsNeeded cross.now owners.now second first }
{
    is_listed(cross.list(second as usize), RowId(first))
        && !has_between(owners, cross, first, second)
}

// Whether some task is between two.
fn has_between(owners: &[u32], cross: &Lists, first: u32, second: u32) -> bool
    requires owners { length owners.now ≡ length cross.now }
    requires few { length cross.now < 2 ^ 32 }
    requires first { first < length cross.now }
    requires second { second < length cross.now }
    ensures { IsTrue result ↔ SomeBetween cross.now owners.now first second }
{
    for between in 0..cross.len() {
        if is_between(owners, cross, first, between as u32, second) {
            return true;
        }
    }
    false
}

// Whether a task is between two others.
fn is_between(owners: &[u32], cross: &Lists, first: u32, between: u32, second: u32) -> bool
    requires owners { length owners.now ≡ length cross.now }
    requires first { first < length cross.now }
    requires between { between < length cross.now }
    requires second { second < length cross.now }
    ensures { IsTrue result ↔ IsBetween cross.now owners.now first second between }
{
    is_next(owners, cross, first, between) && is_next(owners, cross, between, second)
}

// Whether a task is before another: crossed with it, or earlier on its worker.
fn is_next(owners: &[u32], cross: &Lists, first: u32, second: u32) -> bool
    requires owners { length owners.now ≡ length cross.now }
    requires first { first < length cross.now }
    requires second { second < length cross.now }
    ensures { IsTrue result ↔ IsNext cross.now owners.now first second }
{
    is_listed(cross.list(second as usize), RowId(first))
        || owners[first as usize] == owners[second as usize] && first < second
}
