// The plain way to the tasks: each worker's share of each level is looked for, place by place, and the
// rows before each place are weighed anew. It says what the quick way has to give, in a body that cuts
// no slices.
ghost use Rattle.std.specs.Prelude.{◌≡◌, ◌<◌, ◌≤◌, ◌^◌, ◌++◌, All, length, take, IfOk, OnOk};
ghost use Rattle.wave_base.specs.declared.types.RowId.{RowId};
ghost use Rattle.super_tasks.specs.Shares.{AreEven, AreWeights, IsWeight, groups, share, task_of, weight_of, worker_at, worker_tasks};

use sched_types::lists::RowList;
use sched_types::sched::{RowTask, RowTaskList, RowTaskLists, Tasks};
use std::alloc::Global;
use wave_base::types::{Memory, RowId};
use wave_levels::grouped::Levels;

/// Each worker's tasks, as `group` gives them, by a search of each level for each worker.
pub fn group_by_search(
    alloc: Global,
    levels: &Levels,
    weights: &[u64],
    workers: u32,
) -> Result<Tasks, Memory>
    requires weights { AreWeights (length levels.now) weights.now }
    requires some { 1 ≤ workers }
    requires few { workers ≤ 64 }
    ensures tasks { IfOk result (λ tasks. tasks.workers ≡ groups levels.now weights.now workers) }
    ensures even { IfOk result (λ tasks. AreEven levels.now weights.now workers tasks.workers) }
{
    let mut lists = Vec::new(alloc);
    for worker in 0..workers {
        lists.push(worker_list(alloc, levels, weights, workers, worker)?)?;
    }
    Ok(Tasks {
        workers: RowTaskLists::from_vec(lists),
    })
}

// The tasks of one worker.
fn worker_list(
    alloc: Global,
    levels: &Levels,
    weights: &[u64],
    workers: u32,
    worker: u32,
) -> Result<RowTaskList, Memory>
    requires weights { AreWeights (length levels.now) weights.now }
    requires few { workers ≤ 64 }
    ensures { IfOk result (λ list. list ≡ worker_tasks levels.now weights.now workers worker) }
{
    let mut list = RowTaskList::new(alloc);
    for level in 0..levels.count() {
        let rows = rows_for(alloc, levels.rows(level), weights, workers, worker)?;
        push_task(&mut list, level, rows)?;
    }
    Ok(list)
}

// Appends a task of some rows, and nothing for none.
fn push_task(list: &mut RowTaskList, level: u32, rows: Vec<RowId>) -> Result<(), Memory>
    ensures { OnOk result (list.new ≡ list.old ++ task_of level rows.items) }
{
    if rows.is_empty() {
        return Ok(());
    }
    list.push(RowTask {
        level,
        rows: RowList::from_vec(rows),
    })
}

// The rows of a level that go to one worker.
fn rows_for(
    alloc: Global,
    rows: &[RowId],
    weights: &[u64],
    workers: u32,
    worker: u32,
) -> Result<Vec<RowId>, Memory>
    requires few { workers ≤ 64 }
    requires rows { length rows.now < 2 ^ 32 }
    requires weighed { All (λ (r : RowId). r.0 < length weights.now) rows.now }
    requires weights { All IsWeight weights.now }
    ensures { IfOk result (λ mine. mine.items ≡ share weights.now workers rows.now worker) }
{
    let mut mine = Vec::new(alloc);
    for place in 0..rows.len() {
        let found = worker_for(rows, weights, workers, place);
        if found == worker as u128 {
            mine.push(rows[place])?;
        }
    }
    Ok(mine)
}

// The worker to whom the row at a place goes.
fn worker_for(rows: &[RowId], weights: &[u64], workers: u32, place: usize) -> u128
    requires few { workers ≤ 64 }
    requires rows { length rows.now < 2 ^ 32 }
    requires weighed { All (λ (r : RowId). r.0 < length weights.now) rows.now }
    requires weights { All IsWeight weights.now }
    requires place { place < length rows.now }
    ensures { result ≡ worker_at weights.now workers rows.now place }
{
    let before = weight_before(rows, weights, place);
    let total = weight_before(rows, weights, rows.len());
    before * workers as u128 / total
}

// The weight of the rows before a place.
fn weight_before(rows: &[RowId], weights: &[u64], place: usize) -> u128
    requires rows { length rows.now < 2 ^ 32 }
    requires weighed { All (λ (r : RowId). r.0 < length weights.now) rows.now }
    requires weights { All IsWeight weights.now }
    requires place { place ≤ length rows.now }
    ensures weight { result ≡ weight_of weights.now (take place rows.now) }
    ensures fits { result < 2 ^ 64 }
{
    let mut weight = 0;
    for at in 0..place {
        weight += weights[rows[at].0 as usize] as u128;
    }
    weight
}
