// Lists of rows read the other way round.
ghost use Rattle.std.specs.Prelude.{◌≡◌, ◌≤◌, ◌^◌, ◌++◌, length, map, IfOk, OnOk};
ghost use Rattle.row_graph.specs.Turned.{turned};

use crate::lists::Lists;
use std::alloc::Global;
use wave_base::types::{Memory, RowId};

/// Each row of each list, beside the number of its list.
pub fn turned(alloc: Global, lists: &Lists) -> Result<Vec<(u32, RowId)>, Memory>
    requires { length lists.now ≤ 2 ^ 32 }
    ensures { IfOk result (λ entries. entries.items ≡ turned 0 lists.now) }
{
    let mut entries = Vec::with_capacity(alloc, lists.total())?;
    for at in 0..lists.len() {
        push_turned(&mut entries, RowId(at as u32), lists.list(at))?;
    }
    Ok(entries)
}

// Appends each row beside the number of its list.
fn push_turned(into: &mut Vec<(u32, RowId)>, number: RowId, rows: &[RowId]) -> Result<(), Memory>
    ensures { OnOk result (into.new.items ≡ into.old.items ++ map (λ r. (r.0, number)) rows.now) }
{
    for row in rows {
        into.push((row.0, number))?;
    }
    Ok(())
}
