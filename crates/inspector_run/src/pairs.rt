// The pairs of a plan.
ghost use Rattle.std.specs.Prelude.{◌≡◌, ◌+◌, ◌<◌, ◌≤◌, [], IfOk};
ghost use Rattle.std.specs.List.{All};
ghost use Rattle.wave_base.specs.declared.types.RowId.{RowId};
ghost use Rattle.inspector_run.specs.Pairs.{emitted as of_plan};
ghost use Rattle.inspector_run.specs.Ticks.{most_ticks};
ghost use Rattle.inspector_run.specs.Ready.{SearchesAscending, IsReady};
ghost use Rattle.inspector_run.specs.IsPlan.{IsPlan};

use crate::invert::invert;
use crate::needed::needed;
use crate::plan::{InspOp, InspPlan};
use crate::run::run;
use loop_core::arrays::Arrays;
use loop_core::env::Env;
use std::alloc::Global;
use std::sync::ledger::Ledger;
use wave_base::steps::Steps;
use wave_base::types::{Memory, RowId};

/// The pairs that a plan emits, in order, with repeats. The first row of each is below the second.
///
/// The array of each `Locate` ascends. It takes at most a step for each visit and bracket, one for
/// each entry of an array of a `Find`, and for each visit the steps of the searches of `Locate`.
pub fn pairs<L: Ledger>(
    alloc: Global,
    plan: &InspPlan,
    arrays: &Arrays,
    steps: &mut Steps<L>,
) -> Result<Vec<(RowId, RowId)>, Memory>
    requires plan { IsPlan plan.now.ops }
    requires ascending { All (SearchesAscending arrays.now) plan.now.ops }
    ensures emitted { IfOk result (λ pairs. pairs.items ≡ of_plan arrays.now plan.now.ops) }
    ensures ticks { steps.new ≤ steps.old + most_ticks arrays.now plan.now.ops }
    ensures earlier { IfOk result (λ pairs. All (λ (p : RowId × RowId). p.0.0 < p.1.0) pairs.items) }
    ensures rows { IfOk result (λ pairs. All (λ (p : RowId × RowId). p.1.0 < arrays.now.n) pairs.items) }
{
    let ops = needed(alloc, plan.ops.as_slice())?;
    all_pairs(alloc, ops.as_slice(), arrays, steps)
}

// The pairs of operations that may be run.
pub(crate) fn all_pairs<L: Ledger>(
    alloc: Global,
    ops: &[InspOp],
    arrays: &Arrays,
    steps: &mut Steps<L>,
) -> Result<Vec<(RowId, RowId)>, Memory>
    requires { IsReady arrays.now ops.now [] }
    ensures emitted { IfOk result (λ pairs. pairs.items ≡ of_plan arrays.now ops.now) }
    ensures ticks { steps.new ≤ steps.old + most_ticks arrays.now ops.now }
{
    let inverses = invert(alloc, ops, arrays, steps)?;
    let mut pairs = Vec::new(alloc);
    run(
        ops,
        &Env::Empty,
        arrays,
        inverses.as_slice(),
        &mut pairs,
        steps,
    )?;
    Ok(pairs)
}
