// The level of each row.
ghost use Rattle.std.specs.Prelude.{◌≡◌, ℕ, ◌<◌, ◌≤◌, ◌^◌, All, length, map, slice_index, vec_len, IfOk};
ghost use Rattle.wave_base.specs.declared.types.RowId.{RowId};
ghost use Rattle.row_graph.specs.Predecessors.{IsGraph};
ghost use Rattle.wave_levels.specs.Levels.{AreLevels, above, level_at};

use row_graph::preds::Preds;
use std::alloc::Global;
use wave_base::types::{Memory, RowId};

/// The level of each row.
pub fn level_of_each(alloc: Global, preds: &Preds) -> Result<Vec<u32>, Memory>
    ensures levels { IfOk result (λ levels. AreLevels preds.now levels.items) }
    ensures low { IfOk result (λ levels. (k : ℕ) → k < length preds.now → slice_index levels.items k ≤ k) }
    ensures graph { IsGraph preds.now }
{
    let rows = preds.rows();
    let mut levels = Vec::with_capacity(alloc, rows as usize)?;
    for row in 0..rows {
        let level = level_above(levels.as_slice(), preds.before(RowId(row)));
        levels.push(level)?;
    }
    Ok(levels)
}

// The least level above those of some rows.
fn level_above(levels: &[u32], rows: &[RowId]) -> u32
    requires rows { All (λ (r : RowId). r.0 < length levels.now) rows.now }
    requires low { All (λ (r : RowId). level_at levels.now r ≤ r.0) rows.now }
    requires fits { length levels.now < 2 ^ 32 }
    ensures level { result ≡ above (map (level_at levels.now) rows.now) }
    ensures low { result ≤ length levels.now }
{
    let mut level = 0;
    for row in rows {
        level = level.max(levels[row.0 as usize] + 1);
    }
    level
}
