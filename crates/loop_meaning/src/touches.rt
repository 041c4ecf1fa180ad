// The cells that an iteration touches.
ghost use Rattle.std.specs.Prelude.{◌≤◌, ◌↔◌, IfOk, Contains};
ghost use Rattle.wave_base.specs.declared.types.Cell.{Cell};
ghost use Rattle.loop_core.specs.Depth.{body_depth};
ghost use Rattle.loop_core.specs.Touches.{ReadsCell, WritesCell};
ghost use Rattle.loop_meaning.specs.Accesses.{IsAscending};

use crate::accesses::list_accesses;
use crate::cells::Touches;
use crate::places::touched;
use loop_core::arrays::Arrays;
use loop_core::nest::Nest;
use std::alloc::Global;
use wave_base::types::{Memory, RowId};

/// The cells of written arrays that an iteration touches. An access outside its list touches none.
///
/// Its time is that of the iteration, times the number of statements.
pub fn touches(alloc: Global, nest: &Nest, arrays: &Arrays, row: RowId) -> Result<Touches, Memory>
    requires { body_depth nest.now.body ≤ 5 }
    ensures reads_ascend { IfOk result (λ t. IsAscending t.reads.items) }
    ensures writes_ascend { IfOk result (λ t. IsAscending t.writes.items) }
    ensures reads { IfOk result (λ t. (c : Cell) → Contains t.reads.items c ↔ ReadsCell arrays.now nest.now row.0 c) }
    ensures writes { IfOk result (λ t. (c : Cell) → Contains t.writes.items c ↔ WritesCell arrays.now nest.now row.0 c) }
{
    let made = list_accesses(alloc, nest, arrays, row)?;
    let reads = touched(alloc, nest, arrays, made.reads.as_slice())?;
    let writes = touched(alloc, nest, arrays, made.writes.as_slice())?;
    Ok(Touches { reads, writes })
}
