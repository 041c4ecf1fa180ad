// From pairs to a plan.
ghost use Rattle.std.specs.Prelude.{◌<◌, ◌≤◌, All, IfOk};
ghost use Rattle.wave_base.specs.declared.types.RowId.{RowId};
ghost use Rattle.sched_types.specs.Fits.{Fits};
ghost use Rattle.super_tasks.specs.Shares.{AreWeights};
ghost use Rattle.plan_build.specs.Plan.{IsPlan, Pairs};

use row_graph::preds::Preds;
use sched_types::lists::RowList;
use sched_types::sched::Sched;
use std::alloc::Global;
use super_tasks::group::group;
use wait_sparsify::sparsify::sparsify;
use wave_base::types::{Memory, RowId};
use wave_levels::chains::chain;
use wave_levels::levels::levels;

/// A schedule, and what it says in numbers: the dependent pairs, the levels, one longest chain and the
/// cross pairs.
#[derive(Debug, Drop)]
pub struct Built {
    pub edges: u64,
    pub levels: u32,
    pub chain: RowList,
    pub sched: Sched,
    pub cross: u64,
}

/// The plan of `n` rows for 1 to 64 workers.
///
/// Of each pair the second row depends on the first. The first is below the second, and the second
/// below `n`. Pairs may repeat. Each row has a weight from 1 to 2^32, by which levels are shared out.
pub fn build(
    alloc: Global,
    n: u32,
    pairs: Vec<(RowId, RowId)>,
    weights: &[u64],
    workers: u32,
) -> Result<Built, Memory>
    requires earlier { All (λ (p : RowId × RowId). p.0.0 < p.1.0) pairs.items }
    requires rows { All (λ (p : RowId × RowId). p.1.0 < n) pairs.items }
    requires weights { AreWeights n weights.now }
    requires some { 1 ≤ workers }
    requires few { workers ≤ 64 }
    ensures plan { IfOk result (λ built. IsPlan n pairs.items weights.now workers built) }
    ensures fits { IfOk result (λ built. Fits n (Pairs pairs.items) built.sched.workers) }
{
    let preds = Preds::of(alloc, n, pairs)?;
    let levels = levels(alloc, &preds)?;
    let chain = chain(alloc, &preds, &levels)?;
    let tasks = group(alloc, &levels, weights, workers)?;
    let (sched, cross) = sparsify(alloc, &preds, tasks)?;
    Ok(Built {
        edges: preds.edges(),
        levels: levels.count(),
        chain: RowList::from_vec(chain),
        sched,
        cross,
    })
}
