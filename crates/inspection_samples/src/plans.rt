// Inspection plans by hand.
ghost use Rattle.std.specs.Prelude.{IfOk};
ghost use Rattle.std.specs.List.{All};
ghost use Rattle.loop_core.specs.Lists.{Lists};
ghost use Rattle.inspector_run.specs.IsPlan.{IsPlan};
ghost use Rattle.inspector_run.specs.Ready.{SearchesAscending};

use crate::operations::{columns, values};
use inspector_run::plan::InspPlan;
use std::alloc::Global;
use wave_base::types::Memory;

/// A later row reads what the columns before its diagonal say: arrays 0 to 2 are the starts of rows, the
/// columns of entries and the places of the diagonal. It loops over the later row and the place.
pub fn by_columns(alloc: Global) -> Result<InspPlan, Memory>
    ensures plan { IfOk result (λ plan. IsPlan plan.ops) }
    ensures ascending { IfOk result (λ plan. (a : Lists) → All (SearchesAscending a) plan.ops) }
{
    let ops = columns(alloc)?;
    Ok(InspPlan { ops })
}

/// Two rows have one value in array 4. It loops over the earlier row and finds the later one.
pub fn by_values(alloc: Global) -> Result<InspPlan, Memory>
    ensures plan { IfOk result (λ plan. IsPlan plan.ops) }
    ensures ascending { IfOk result (λ plan. (a : Lists) → All (SearchesAscending a) plan.ops) }
{
    let ops = values(alloc)?;
    Ok(InspPlan { ops })
}
