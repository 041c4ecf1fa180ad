// Which arrays a nest writes.
ghost use Rattle.std.specs.Prelude.{◌≡◌, IfOk};
ghost use Rattle.loop_core.specs.IsNest.{IsNest};
ghost use Rattle.loop_core.specs.Shape.{is_target};
ghost use Rattle.core_value.specs.Taken.{flagged};

use loop_core::nest::Nest;
use std::alloc::Global;
use wave_base::types::{ArrayId, Memory};

/// Whether the nest writes each array: there are at most 64.
pub fn written_arrays(alloc: Global, nest: &Nest) -> Result<Vec<bool>, Memory>
    ensures { IfOk result (λ flags. IsNest nest.now → flagged flags.items ≡ is_target nest.now) }
{
    let mut flags = Vec::with_capacity(alloc, 64)?;
    for array in 0..64u8 {
        flags.push(nest.writes(ArrayId(array)))?;
    }
    Ok(flags)
}
