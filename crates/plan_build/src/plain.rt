// The plain way to a plan: every step is a search. It says what the quick way has to give.
ghost use Rattle.std.specs.Prelude.{◌<◌, ◌≤◌, All, IfOk};
ghost use Rattle.wave_base.specs.declared.types.RowId.{RowId};
ghost use Rattle.sched_types.specs.Fits.{Fits};
ghost use Rattle.super_tasks.specs.Shares.{AreWeights};
ghost use Rattle.plan_build.specs.Plan.{IsPlan, Pairs};

use crate::build::Built;
use row_graph::plain::predecessors;
use sched_types::lists::RowList;
use std::alloc::Global;
use super_tasks::plain::group_by_search;
use wait_sparsify::plain::sparsify_by_search;
use wave_base::types::{Memory, RowId};
use wave_levels::plain::{chain_by_search, levels_by_search};

/// The plan of `n` rows for 1 to 64 workers, as `build` gives it, by searches.
pub fn build_by_search(
    alloc: Global,
    n: u32,
    pairs: &[(RowId, RowId)],
    weights: &[u64],
    workers: u32,
) -> Result<Built, Memory>
    requires earlier { All (λ (p : RowId × RowId). p.0.0 < p.1.0) pairs.now }
    requires rows { All (λ (p : RowId × RowId). p.1.0 < n) pairs.now }
    requires weights { AreWeights n weights.now }
    requires some { 1 ≤ workers }
    requires few { workers ≤ 64 }
    ensures plan { IfOk result (λ built. IsPlan n pairs.now weights.now workers built) }
    ensures fits { IfOk result (λ built. Fits n (Pairs pairs.now) built.sched.workers) }
{
    let preds = predecessors(alloc, n, pairs)?;
    let levels = levels_by_search(alloc, &preds)?;
    let chain = chain_by_search(alloc, &preds, &levels)?;
    let tasks = group_by_search(alloc, &levels, weights, workers)?;
    let (sched, cross) = sparsify_by_search(alloc, &preds, tasks)?;
    Ok(Built {
        edges: preds.edges(),
        levels: levels.count(),
        chain: RowList::from_vec(chain),
        sched,
        cross,
    })
}
