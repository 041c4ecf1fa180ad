// The rows of one level, shared out.
ghost use Rattle.std.specs.Prelude.{◌≡◌, ℕ, ◌<◌, ◌≤◌, ◌++◌, ◌*◌, ◌/◌, ◌^◌, [], All, length, take, slice_index_or, vec_len, OnOk};
ghost use Rattle.wave_base.specs.declared.types.RowId.{RowId};
ghost use Rattle.super_tasks.specs.Shares.{IsWeight, share, task_of, weight_of};

use sched_types::lists::RowList;
use sched_types::sched::{RowTask, RowTaskList};
use std::alloc::Global;
use wave_base::types::{Memory, RowId};

// A place of a level, with the weight of the rows before it.
#[derive(Clone, Copy)]
struct Place {
    at: usize,
    before: u64,
}

/// Gives each worker with a share of a level one task more.
pub fn share_out(
    alloc: Global,
    lists: &mut Vec<RowTaskList>,
    level: u32,
    rows: &[RowId],
    weights: &[u64],
) -> Result<(), Memory>
    requires some { 0 < vec_len lists.old }
    requires few { vec_len lists.old ≤ 64 }
    requires rows { length rows.now < 2 ^ 32 }
    requires weighed { All (λ (r : RowId). r.0 < length weights.now) rows.now }
    requires weights { All IsWeight weights.now }
    ensures len { OnOk result (vec_len lists.new ≡ vec_len lists.old) }
    ensures shares { OnOk result ((w : ℕ) → w < vec_len lists.old
        → slice_index_or lists.new.items w [] ≡ slice_index_or lists.old.items w []
        ++ task_of level (share weights.now (vec_len lists.old) rows.now w)) }
{
    let workers = lists.len();
    let total = total_of(rows, weights);
    let mut at = 0;
    let mut before = 0;
    while at < rows.len() {
        let worker = worker_of(before, workers, total);
        let start = Place { at, before };
        let end = end_of(rows, weights, start, limit_of(worker, workers, total));
        let task = RowTask {
            level,
            rows: RowList::from_slice(alloc, &rows[at..end.at])?,
        };
        let list = &mut lists[worker];
        list.push(task)?;
        at = end.at;
        before = end.before;
    }
    Ok(())
}

// The weight of some rows.
fn total_of(rows: &[RowId], weights: &[u64]) -> u64
    requires rows { length rows.now < 2 ^ 32 }
    requires weighed { All (λ (r : RowId). r.0 < length weights.now) rows.now }
    requires weights { All IsWeight weights.now }
    ensures { result ≡ weight_of weights.now rows.now }
{
    let mut total = 0;
    for at in 0..rows.len() {
        total += weights[rows[at].0 as usize];
    }
    total
}

// The worker of a row before which stand rows of some weight.
fn worker_of(before: u64, workers: usize, total: u64) -> usize
    requires before { before < total }
    requires workers { workers ≤ 64 }
    ensures worker { result ≡ before * workers / total }
    ensures below { 0 < workers → result < workers }
{
    (before as u128 * workers as u128 / total as u128) as usize
}

// The least weight of the rows before a row of the workers after one.
fn limit_of(worker: usize, workers: usize, total: u64) -> u64
    requires worker { worker < workers }
    requires workers { workers ≤ 64 }
    requires some { 0 < total }
    ensures within { result ≤ total }
    ensures before { (b : ℕ) → b < result → b * workers / total ≤ worker }
    ensures from { (b : ℕ) → result ≤ b → worker < b * workers / total }
{
    (((worker as u128 + 1) * total as u128 + workers as u128 - 1) / workers as u128) as u64
}

// The first place after one that has rows of at least some weight before it.
fn end_of(rows: &[RowId], weights: &[u64], start: Place, limit: u64) -> Place
    requires start { start.at ≤ length rows.now }
    requires before { start.before ≡ weight_of weights.now (take start.at rows.now) }
    requires short { start.before < limit }
    requires limit { limit ≤ weight_of weights.now rows.now }
    requires rows { length rows.now < 2 ^ 32 }
    requires weighed { All (λ (r : RowId). r.0 < length weights.now) rows.now }
    requires weights { All IsWeight weights.now }
    ensures further { start.at < result.at }
    ensures within { result.at ≤ length rows.now }
    ensures before { result.before ≡ weight_of weights.now (take result.at rows.now) }
    ensures passed { (s : ℕ) → start.at ≤ s → s < result.at → weight_of weights.now (take s rows.now) < limit }
    ensures reached { limit ≤ result.before }
{
    let mut at = start.at;
    let mut before = start.before;
    while before < limit {
        before += weights[rows[at].0 as usize];
        at += 1;
    }
    Place { at, before }
}
