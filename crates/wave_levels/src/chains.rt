// One longest chain.
ghost use Rattle.std.specs.Prelude.{◌≡◌, ℕ, ◌+◌, ◌<◌, ◌≤◌, All, Any, Contains, length, IfOk};
ghost use Rattle.wave_base.specs.declared.types.RowId.{RowId};
ghost use Rattle.row_graph.specs.Predecessors.{AreAscending};
ghost use Rattle.wave_levels.specs.Chains.{IsLeastChain};
ghost use Rattle.wave_levels.specs.Levels.{AreLevels, above, level_at};

use crate::grouped::Levels;
use row_graph::preds::Preds;
use std::alloc::Global;
use wave_base::types::{Memory, RowId};

/// A longest chain: one row of each level, each before the next. There is none without rows.
///
/// It ends at the least row of the greatest level. Before each row stands its least predecessor that
/// is one level lower. The levels are those of `preds`.
pub fn chain(alloc: Global, preds: &Preds, levels: &Levels) -> Result<Vec<RowId>, Memory>
    requires { AreLevels preds.now levels.now }
    ensures { IfOk result (λ rows. IsLeastChain preds.now levels.now rows.items) }
{
    let count = levels.count();
    if count == 0 {
        return Ok(Vec::new(alloc));
    }
    let last = levels.rows(count - 1)[0];
    chain_to(alloc, preds, levels, last)
}

// The chain that ends at a row of the greatest level.
fn chain_to(
    alloc: Global,
    preds: &Preds,
    levels: &Levels,
    last: RowId,
) -> Result<Vec<RowId>, Memory>
    requires levels { AreLevels preds.now levels.now }
    requires row { last.0 < length levels.now }
    requires greatest { level_at levels.now last + 1 ≡ above levels.now }
    requires least { (r : RowId) → r.0 < length levels.now
        → level_at levels.now r + 1 ≡ above levels.now → last.0 ≤ r.0 }
    ensures { IfOk result (λ rows. IsLeastChain preds.now levels.now rows.items) }
{
    let count = levels.count();
    let mut rows = vec![in alloc; last; count as usize]?;
    for back in 1..count {
        let level = count - 1 - back;
        let next = rows[level as usize + 1];
        rows[level as usize] = least_of_level(levels, preds.before(next), level);
    }
    Ok(rows)
}

// The first row of a level, among rows in ascending order that have one.
fn least_of_level(levels: &Levels, rows: &[RowId], level: u32) -> RowId
    requires within { All (λ (r : RowId). r.0 < length levels.now) rows.now }
    requires ascending { AreAscending rows.now }
    requires some { (i : RowId) × Contains rows.now i × (level_at levels.now i ≡ level) }
    ensures one { Contains rows.now result }
    ensures level { level_at levels.now result ≡ level }
    ensures least { (i : RowId) → Contains rows.now i → level_at levels.now i ≡ level → result.0 ≤ i.0 }
{
    for row in rows {
        if levels.of(*row) == level {
            return *row;
        }
    }
    unreachable!()
}
