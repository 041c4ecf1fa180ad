// The plain way to the predecessors: each pair of rows is looked for among the pairs. It says what the
// quick way has to give, in a body that needs no buckets.
ghost use Rattle.std.specs.Prelude.{◌≡◌, ◌<◌, ◌↔◌, All, Contains, IfOk, IsTrue};
ghost use Rattle.wave_base.specs.declared.types.RowId.{RowId};
ghost use Rattle.row_graph.specs.Predecessors.{ArePredecessors, AreRowsBefore};

use crate::lists::Lists;
use crate::preds::Preds;
use std::alloc::Global;
use wave_base::types::{Memory, RowId};

/// The predecessors of each of `n` rows, as `Preds::of` gives them, by a search for each pair of rows.
pub fn predecessors(alloc: Global, n: u32, pairs: &[(RowId, RowId)]) -> Result<Preds, Memory>
    requires earlier { All (λ (p : RowId × RowId). p.0.0 < p.1.0) pairs.now }
    requires rows { All (λ (p : RowId × RowId). p.1.0 < n) pairs.now }
    ensures { IfOk result (λ preds. ArePredecessors n pairs.now preds) }
{
    let mut graph = Lists::none(alloc)?;
    for row in 0..n {
        let before = rows_before(alloc, pairs, RowId(row))?;
        graph = graph.with_list(before.as_slice())?;
    }
    Ok(Preds { graph })
}

// The rows that stand before a row in a pair.
fn rows_before(alloc: Global, pairs: &[(RowId, RowId)], row: RowId) -> Result<Vec<RowId>, Memory>
    requires { All (λ (p : RowId × RowId). p.0.0 < p.1.0) pairs.now }
    ensures { IfOk result (λ rows. AreRowsBefore pairs.now row rows.items) }
{
    let mut rows = Vec::new(alloc);
    for first in 0..row.0 {
        if has_pair(pairs, RowId(first), row) {
            rows.push(RowId(first))?;
        }
    }
    Ok(rows)
}

// Whether a pair is among the pairs.
fn has_pair(pairs: &[(RowId, RowId)], first: RowId, second: RowId) -> bool
    ensures { IsTrue result ↔ Contains pairs.now (first, second) }
{
    for pair in pairs {
        if pair.0.0 == first.0 && pair.1.0 == second.0 {
            return true;
        }
    }
    false
}

/// Whether a row is in a list, by a look at each of its rows.
pub fn is_listed(rows: &[RowId], row: RowId) -> bool
    ensures { IsTrue result ↔ Contains rows.now row }
{
    for other in rows {
        if other.0 == row.0 {
            return true;
        }
    }
    false
}
