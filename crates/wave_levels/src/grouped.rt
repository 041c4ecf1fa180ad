// Levels: the level of each row, and the rows of each level.
ghost use Rattle.std.specs.Prelude.{◌≡◌, ℕ, ◌<◌, ◌≤◌, ◌^◌, ◌↔◌, Contains, length, map, slice_index, vec_len, IfOk};
ghost use Rattle.wave_base.specs.declared.types.RowId.{RowId};
ghost use Rattle.row_graph.specs.Predecessors.{AreAscending};
ghost use Rattle.wave_levels.specs.Levels.{above, level_at, levelled, rows_at};

use row_graph::buckets::by_key;
use row_graph::lists::Lists;
use std::alloc::Global;
use std::marker::Model;
use wave_base::types::{Memory, RowId};

/// The level of each row, and the rows of each level.
#[derive(Debug, Drop)]
pub struct Levels {
    pub(crate) levels: Vec<u32>,
    pub(crate) rows: Lists,
}

impl Model for Levels {
    ghost use Rattle.std.specs.Prelude.{List, ℕ};
    ghost use Rattle.wave_levels.specs.Grouped.{AreGrouped};

    ghost Value = { List ℕ };

    ghost view = { λ l. l.levels.items };

    ghost invariant = { λ l. AreGrouped l.levels.items l.rows };
}

// The rows in groups by their levels.
pub(crate) fn grouped(alloc: Global, levels: Vec<u32>) -> Result<Levels, Memory>
    requires low { (k : ℕ) → k < length levels.items → slice_index levels.items k ≤ k }
    requires fits { length levels.items < 2 ^ 32 }
    ensures { IfOk result (λ grouped. grouped ≡ levels.items) }
{
    let entries = beside_rows(alloc, levels.as_slice())?;
    let rows = by_key(alloc, count_of(levels.as_slice()), entries.as_slice())?;
    Ok(Levels { levels, rows })
}

impl Levels {
    /// The number of levels: one more than the greatest level, and 0 without rows.
    pub fn count(&self) -> u32
        ensures { result ≡ above self.now }
    {
        self.rows.len() as u32
    }

    /// The level of a row.
    pub fn of(&self, row: RowId) -> u32
        requires { row.0 < length self.now }
        ensures { result ≡ level_at self.now row }
    {
        self.levels[row.0 as usize]
    }

    /// The rows of a level, ascending.
    pub fn rows(&self, level: u32) -> &[RowId]
        requires { level < above self.now }
        ensures rows { result.now ≡ rows_at self.now level }
        ensures members { (r : RowId) → Contains result.now r
            ↔ ((r.0 < length self.now) × (level_at self.now r ≡ level)) }
        ensures ascending { AreAscending result.now }
        ensures few { length result.now < 2 ^ 32 }
    {
        self.rows.list(level as usize)
    }
}

// The number of levels.
fn count_of(levels: &[u32]) -> u32
    requires low { (k : ℕ) → k < length levels.now → slice_index levels.now k ≤ k }
    requires fits { length levels.now < 2 ^ 32 }
    ensures { result ≡ above levels.now }
{
    let mut count = 0;
    for level in levels {
        count = count.max(*level + 1);
    }
    count
}

// Each row beside its level.
fn beside_rows(alloc: Global, levels: &[u32]) -> Result<Vec<(u32, RowId)>, Memory>
    requires { length levels.now < 2 ^ 32 }
    ensures { IfOk result (λ entries. entries.items ≡ levelled levels.now) }
{
    let mut entries = Vec::with_capacity(alloc, levels.len())?;
    for at in 0..levels.len() {
        entries.push((levels[at], RowId(at as u32)))?;
    }
    Ok(entries)
}
