// From pairs to a plan, and how much it has.
ghost use Rattle.std.specs.Prelude.{◌<◌, ◌≤◌, All};
ghost use Rattle.wave_base.specs.declared.types.RowId.{RowId};
ghost use Rattle.super_tasks.specs.Shares.{AreWeights};

use plan_build::build::build;
use schedule_samples::counts::tasks_and_waits;
use std::alloc::Global;
use wave_base::types::{Memory, RowId};

#[derive(Clone, Copy)]
pub struct Counts {
    pub edges: u64,
    pub levels: u32,
    pub chain: usize,
    pub tasks: usize,
    pub cross: u64,
    pub waits: usize,
}

/// Plans the rows, and counts what came out.
pub fn plan(
    alloc: Global,
    rows: u32,
    pairs: Vec<(RowId, RowId)>,
    weights: &[u64],
    workers: u32,
) -> Result<Counts, Memory>
    requires earlier { All (λ (p : RowId × RowId). p.0.0 < p.1.0) pairs.items }
    requires below { All (λ (p : RowId × RowId). p.1.0 < rows) pairs.items }
    requires weights { AreWeights rows weights.now }
    requires some { 1 ≤ workers }
    requires few { workers ≤ 64 }
{
    let built = build(alloc, rows, pairs, weights, workers)?;
    let (tasks, waits) = tasks_and_waits(&built.sched);
    Ok(Counts {
        edges: built.edges,
        levels: built.levels,
        chain: built.chain.as_slice().len(),
        tasks,
        cross: built.cross,
        waits,
    })
}
