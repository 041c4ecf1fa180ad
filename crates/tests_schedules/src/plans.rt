// Plans that were worked out by hand, and the quick way against the plain one.
ghost use Rattle.std.specs.Prelude.{◌<◌, ◌≤◌, All};
ghost use Rattle.wave_base.specs.declared.types.RowId.{RowId};

use crate::shown::plan_shown;
use plan_build::build::build;
use plan_build::plain::build_by_search;
use schedule_samples::counts::tasks_and_waits;
use schedule_samples::made::made_pairs;
use schedule_samples::shapes::{Shape, pairs};
use schedule_samples::weights::{made_weights, valid_weights};
use schedule_samples::worked::{by_columns, forward_substitution, incomplete_factors};
use std::alloc::Global;
use std::test::Fail;
use wave_base::types::{Memory, RowId};

// The plan of rows with some weights; rows past the list's end have weight 1.
pub fn planned(
    alloc: Global,
    rows: u32,
    pairs: Vec<(RowId, RowId)>,
    weights: &[u64],
    workers: u32,
) -> Result<String, Memory>
    requires earlier { All (λ (p : RowId × RowId). p.0.0 < p.1.0) pairs.items }
    requires below { All (λ (p : RowId × RowId). p.1.0 < rows) pairs.items }
    requires some { 1 ≤ workers }
    requires few { workers ≤ 64 }
{
    let weights = valid_weights(alloc, rows, weights)?;
    let built = build(alloc, rows, pairs, weights.as_slice(), workers)?;
    plan_shown(alloc, &built)
}

fn quick(alloc: Global, seed: u32) -> Result<String, Memory> {
    let pairs = made_pairs(alloc, seed, seed % 23)?;
    let weights = made_weights(alloc, seed, seed % 23)?;
    let built = build(alloc, seed % 23, pairs, weights.as_slice(), 1 + seed % 64)?;
    plan_shown(alloc, &built)
}

fn searched(alloc: Global, seed: u32) -> Result<String, Memory> {
    let pairs = made_pairs(alloc, seed, seed % 23)?;
    let weights = made_weights(alloc, seed, seed % 23)?;
    let built = build_by_search(
        alloc,
        seed % 23,
        pairs.as_slice(),
        weights.as_slice(),
        1 + seed % 64,
    )?;
    plan_shown(alloc, &built)
}

#[test]
fn quick_and_plain_ways_agree(rt: HostRuntime) -> Result<(), Fail> {
    for seed in 0..256u32 {
        let fast = quick(rt.alloc(), seed)?;
        let slow = searched(rt.alloc(), seed)?;
        assert_eq!(rt; fast.as_str(), slow.as_str(), "at {seed}");
    }
    Ok(())
}

#[test]
fn plan_of_forward_substitution(rt: HostRuntime) -> Result<(), Fail> {
    let text = planned(rt.alloc(), 6, forward_substitution(rt.alloc())?, &[], 2)?;
    assert_eq!(rt;
        text.as_str(),
        "edges 12 levels 3 cross 6 chain 0 2 4 worker task 0 0 task 1 2 1:1 task 2 4 1:2 worker task 0 1 task 1 3 0:1 task 2 5 0:2"
    );
    Ok(())
}

#[test]
fn plan_of_substitution_by_columns(rt: HostRuntime) -> Result<(), Fail> {
    let text = planned(rt.alloc(), 4, by_columns(rt.alloc())?, &[], 2)?;
    assert_eq!(rt;
        text.as_str(),
        "edges 3 levels 3 cross 2 chain 1 2 3 worker task 0 0 task 1 2 1:1 task 2 3 worker task 0 1"
    );
    Ok(())
}

// Row 0 has one statement instance, rows 1 and 2 two each, and row 3 one: no pair crosses any more.
#[test]
fn plan_of_substitution_by_columns_by_work(rt: HostRuntime) -> Result<(), Fail> {
    let text = planned(rt.alloc(), 4, by_columns(rt.alloc())?, &[2, 3, 3, 2], 2)?;
    assert_eq!(rt;
        text.as_str(),
        "edges 3 levels 3 cross 0 chain 1 2 3 worker task 0 0 1 task 1 2 task 2 3 worker"
    );
    Ok(())
}

// Incomplete factors of three rows: row 0 has no statement instance, rows 1 and 2 have two each.
#[test]
fn plan_of_incomplete_factors(rt: HostRuntime) -> Result<(), Fail> {
    let text = planned(
        rt.alloc(),
        3,
        incomplete_factors(rt.alloc())?,
        &[1, 3, 3],
        2,
    )?;
    assert_eq!(rt;
        text.as_str(),
        "edges 1 levels 2 cross 0 chain 1 2 worker task 0 0 1 task 1 2 worker"
    );
    Ok(())
}

#[test]
fn no_rows(rt: HostRuntime) -> Result<(), Fail> {
    let text = planned(rt.alloc(), 0, Vec::new(rt.alloc()), &[], 2)?;
    assert_eq!(rt;
        text.as_str(),
        "edges 0 levels 0 cross 0 chain worker worker"
    );
    Ok(())
}

fn one_row_wanted(alloc: Global) -> Result<String, Memory> {
    let mut wanted = String::new(alloc);
    wanted.push_str("edges 0 levels 1 cross 0 chain 0 worker task 0 0")?;
    for _ in 0..63 {
        wanted.push_str(" worker")?;
    }
    Ok(wanted)
}

#[test]
fn one_row_and_many_workers(rt: HostRuntime) -> Result<(), Fail> {
    let text = planned(rt.alloc(), 1, Vec::new(rt.alloc()), &[], 64)?;
    let wanted = one_row_wanted(rt.alloc())?;
    assert_eq!(rt; text.as_str(), wanted.as_str());
    Ok(())
}

#[test]
fn rows_without_pairs(rt: HostRuntime) -> Result<(), Fail> {
    let text = planned(rt.alloc(), 4, Vec::new(rt.alloc()), &[], 2)?;
    assert_eq!(rt;
        text.as_str(),
        "edges 0 levels 1 cross 0 chain 0 worker task 0 0 1 worker task 0 2 3"
    );
    Ok(())
}

// A point's work in forward substitution on a grid of 100 by 100: one statement instance, and one for
// each neighbour above it and left of it.
fn grid_work(alloc: Global) -> Result<Vec<u64>, Memory> {
    let mut work = Vec::new(alloc);
    for point in 0..10000u64 {
        let above = (point / 100).min(1);
        let left = (point % 100).min(1);
        work.push(2 + above + left)?;
    }
    Ok(work)
}

// How much the plan of a grid of 100 by 100 points has.
fn grid_counts(alloc: Global, weights: &[u64]) -> Result<String, Memory> {
    let pairs = pairs(alloc, Shape::Grid, 10000, 100)?;
    let weights = valid_weights(alloc, 10000, weights)?;
    let built = build(alloc, 10000, pairs, weights.as_slice(), 4)?;
    let (tasks, waits) = tasks_and_waits(&built.sched);
    let chain = built.chain.as_slice().len();
    Ok(format!(in alloc;
        "edges {} levels {} chain {chain} tasks {tasks} cross {} waits {waits}",
        built.edges, built.levels, built.cross
    )?)
}

#[test]
fn a_grid_of_100_by_100(rt: HostRuntime) -> Result<(), Fail> {
    let text = grid_counts(rt.alloc(), &[])?;
    assert_eq!(rt;
        text.as_str(),
        "edges 19800 levels 199 chain 199 tasks 784 cross 588 waits 588"
    );
    Ok(())
}

#[test]
fn a_grid_of_100_by_100_by_work(rt: HostRuntime) -> Result<(), Fail> {
    let work = grid_work(rt.alloc())?;
    let text = grid_counts(rt.alloc(), work.as_slice())?;
    assert_eq!(rt;
        text.as_str(),
        "edges 19800 levels 199 chain 199 tasks 783 cross 588 waits 588"
    );
    Ok(())
}
