// The levels of the rows of a graph.
ghost use Rattle.std.specs.Prelude.{◌≡◌, ◌<◌, length, IfOk};
ghost use Rattle.wave_base.specs.declared.types.RowId.{RowId};
ghost use Rattle.wave_levels.specs.Chains.{IsLongest};
ghost use Rattle.wave_levels.specs.Levels.{AreLevels, level_at};

use crate::each::level_of_each;
use crate::grouped::{Levels, grouped};
use row_graph::preds::Preds;
use std::alloc::Global;
use wave_base::types::Memory;

/// The level of each row: the number of edges of a longest chain that ends there.
///
/// The work is linear in the rows and their predecessors.
pub fn levels(alloc: Global, preds: &Preds) -> Result<Levels, Memory>
    ensures levels { IfOk result (λ levels. AreLevels preds.now levels) }
    ensures longest { IfOk result (λ levels. (j : RowId) → j.0 < length preds.now
        → IsLongest preds.now j (level_at levels j)) }
{
    let levels = level_of_each(alloc, preds)?;
    grouped(alloc, levels)
}
