// The tasks of each worker.
ghost use Rattle.std.specs.Prelude.{◌<◌, ◌≤◌, All};
ghost use Rattle.wave_base.specs.declared.types.RowId.{RowId};
ghost use Rattle.super_tasks.specs.Shares.{AreWeights};

use crate::shown::tasks_shown;
use row_graph::preds::Preds;
use schedule_samples::made::made_pairs;
use schedule_samples::weights::{made_weights, valid_weights};
use schedule_samples::worked::by_columns;
use std::alloc::Global;
use std::test::Fail;
use super_tasks::group::group;
use super_tasks::plain::group_by_search;
use wave_base::types::{Memory, RowId};
use wave_levels::levels::levels;

fn quick(
    alloc: Global,
    rows: u32,
    pairs: Vec<(RowId, RowId)>,
    weights: &[u64],
    workers: u32,
) -> Result<String, Memory>
    requires earlier { All (λ (p : RowId × RowId). p.0.0 < p.1.0) pairs.items }
    requires below { All (λ (p : RowId × RowId). p.1.0 < rows) pairs.items }
    requires weights { AreWeights rows weights.now }
    requires some { 1 ≤ workers }
    requires few { workers ≤ 64 }
{
    let preds = Preds::of(alloc, rows, pairs)?;
    let levels = levels(alloc, &preds)?;
    let tasks = group(alloc, &levels, weights, workers)?;
    tasks_shown(alloc, &tasks)
}

fn searched(
    alloc: Global,
    rows: u32,
    pairs: Vec<(RowId, RowId)>,
    weights: &[u64],
    workers: u32,
) -> Result<String, Memory>
    requires earlier { All (λ (p : RowId × RowId). p.0.0 < p.1.0) pairs.items }
    requires below { All (λ (p : RowId × RowId). p.1.0 < rows) pairs.items }
    requires weights { AreWeights rows weights.now }
    requires some { 1 ≤ workers }
    requires few { workers ≤ 64 }
{
    let preds = Preds::of(alloc, rows, pairs)?;
    let levels = levels(alloc, &preds)?;
    let tasks = group_by_search(alloc, &levels, weights, workers)?;
    tasks_shown(alloc, &tasks)
}

// The tasks of substitution by columns on two workers, for some weights.
fn columns_tasks(alloc: Global, weights: &[u64]) -> Result<String, Memory> {
    let pairs = by_columns(alloc)?;
    let weights = valid_weights(alloc, 4, weights)?;
    quick(alloc, 4, pairs, weights.as_slice(), 2)
}

// The tasks of rows without pairs, by their weights.
fn alone(alloc: Global, rows: u32, weights: &[u64], workers: u32) -> Result<String, Memory>
    requires some { 1 ≤ workers }
    requires few { workers ≤ 64 }
{
    let weights = valid_weights(alloc, rows, weights)?;
    quick(alloc, rows, Vec::new(alloc), weights.as_slice(), workers)
}

#[test]
fn equal_weights_share_by_number(rt: HostRuntime) -> Result<(), Fail> {
    let text = columns_tasks(rt.alloc(), &[])?;
    assert_eq!(rt;
        text.as_str(),
        " worker level 0 0 level 1 2 level 2 3 worker level 0 1"
    );
    let text = alone(rt.alloc(), 5, &[], 3)?;
    assert_eq!(rt;
        text.as_str(),
        " worker level 0 0 1 worker level 0 2 3 worker level 0 4"
    );
    let text = alone(rt.alloc(), 5, &[9, 9, 9, 9, 9], 3)?;
    assert_eq!(rt;
        text.as_str(),
        " worker level 0 0 1 worker level 0 2 3 worker level 0 4"
    );
    Ok(())
}

// Columns of one, two, two and one entries: before row 1 stand 2 of 5.
#[test]
fn tasks_of_substitution_by_columns(rt: HostRuntime) -> Result<(), Fail> {
    let text = columns_tasks(rt.alloc(), &[2, 3, 3, 2])?;
    assert_eq!(rt;
        text.as_str(),
        " worker level 0 0 1 level 1 2 level 2 3 worker"
    );
    Ok(())
}

// Before the rows stand 0, 5, 6, 7 and 8 of 12.
#[test]
fn heavy_rows_at_both_ends(rt: HostRuntime) -> Result<(), Fail> {
    let text = alone(rt.alloc(), 5, &[5, 1, 1, 1, 4], 3)?;
    assert_eq!(rt;
        text.as_str(),
        " worker level 0 0 worker level 0 1 2 3 worker level 0 4"
    );
    Ok(())
}

// Before the rows stand 0, 1 and 11 of 12, and none of the second third's rows.
#[test]
fn a_heavy_row_takes_a_workers_share(rt: HostRuntime) -> Result<(), Fail> {
    let text = alone(rt.alloc(), 3, &[1, 10, 1], 3)?;
    assert_eq!(rt;
        text.as_str(),
        " worker level 0 0 1 worker worker level 0 2"
    );
    Ok(())
}

#[test]
fn the_greatest_weights(rt: HostRuntime) -> Result<(), Fail> {
    let text = alone(rt.alloc(), 3, &[4294967296, 4294967296, 1], 4)?;
    assert_eq!(rt;
        text.as_str(),
        " worker level 0 0 worker level 0 1 worker worker level 0 2"
    );
    Ok(())
}

fn made_quick(alloc: Global, seed: u32) -> Result<String, Memory> {
    let pairs = made_pairs(alloc, seed, seed % 14)?;
    let weights = made_weights(alloc, seed, seed % 14)?;
    quick(alloc, seed % 14, pairs, weights.as_slice(), 1 + seed % 5)
}

fn made_searched(alloc: Global, seed: u32) -> Result<String, Memory> {
    let pairs = made_pairs(alloc, seed, seed % 14)?;
    let weights = made_weights(alloc, seed, seed % 14)?;
    searched(alloc, seed % 14, pairs, weights.as_slice(), 1 + seed % 5)
}

#[test]
fn quick_and_plain_ways_agree(rt: HostRuntime) -> Result<(), Fail> {
    for seed in 0..240u32 {
        let fast = made_quick(rt.alloc(), seed)?;
        let slow = made_searched(rt.alloc(), seed)?;
        assert_eq!(rt; fast.as_str(), slow.as_str(), "at {seed}");
    }
    Ok(())
}
