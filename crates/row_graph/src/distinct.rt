// Lists without the repeats that stand side by side.
ghost use Rattle.std.specs.Prelude.{◌≡◌, ◌+◌, ◌<◌, ◌++◌, length, map, drop, slice_index_or, IfOk, OnOk};
ghost use Rattle.row_graph.specs.Distinct.{begins_with, distinct};
ghost use Rattle.row_graph.specs.Rows.{row_zero};

use crate::lists::Lists;
use std::alloc::Global;
use wave_base::types::{Memory, RowId};

/// Each list without the repeats that stand side by side.
pub fn distinct_lists(alloc: Global, lists: &Lists) -> Result<Lists, Memory>
    ensures { IfOk result (λ clean. clean ≡ map distinct lists.now) }
{
    let mut starts = Vec::with_capacity(alloc, lists.len() + 1)?;
    let mut flat = Vec::with_capacity(alloc, lists.total())?;
    starts.push(0)?;
    for at in 0..lists.len() {
        push_distinct(&mut flat, lists.list(at))?;
        starts.push(flat.len())?;
    }
    Ok(Lists::from_parts(starts, flat))
}

// Appends the rows without the repeats that stand side by side.
fn push_distinct(into: &mut Vec<RowId>, rows: &[RowId]) -> Result<(), Memory>
    ensures { OnOk result (into.new.items ≡ into.old.items ++ distinct rows.now) }
{
    for at in 0..rows.len() {
        if !is_repeated(rows, at) {
            into.push(rows[at])?;
        }
    }
    Ok(())
}

// Whether the row at a place stands at the next place too.
fn is_repeated(rows: &[RowId], at: usize) -> bool
    requires { at < length rows.now }
    ensures { result ≡ begins_with (slice_index_or rows.now at row_zero) (drop (at + 1) rows.now) }
{
    at + 1 < rows.len() && rows[at + 1].0 == rows[at].0
}
