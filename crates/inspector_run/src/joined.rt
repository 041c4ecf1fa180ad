// Lists of pairs, one after another.
ghost use Rattle.std.specs.Prelude.{◌≡◌, flat_map, vec_items, IfOk};

use std::alloc::Global;
use wave_base::types::{Memory, RowId};

/// The lists as one. It takes the memory of that one at once.
pub fn joined(alloc: Global, lists: &[Vec<(RowId, RowId)>]) -> Result<Vec<(RowId, RowId)>, Memory>
    ensures { IfOk result (λ all. all.items ≡ flat_map vec_items lists.now) }
{
    let mut all = Vec::with_capacity(alloc, total(lists))?;
    for list in lists {
        all.extend_from_slice(list.as_slice())?;
    }
    Ok(all)
}

fn total(lists: &[Vec<(RowId, RowId)>]) -> usize {
    let mut total = 0usize;
    for list in lists {
        total = total.saturating_add(list.len());
    }
    total
}
