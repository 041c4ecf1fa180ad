// The tasks that each task is crossed with.
ghost use Rattle.std.specs.Prelude.{◌≡◌, ◌<◌, ◌^◌, ◌++◌, All, length, map, IfOk, OnOk};
ghost use Rattle.wave_base.specs.declared.types.RowId.{RowId};
ghost use Rattle.row_graph.specs.Turned.{turned};
ghost use Rattle.wait_sparsify.specs.Survivors.{nexts};

use row_graph::buckets::by_key;
use row_graph::lists::Lists;
use std::alloc::Global;
use wave_base::types::{Memory, RowId};

/// For each task those that it is crossed with, ascending. The work is linear in the cross pairs.
pub fn followers(alloc: Global, cross: &Lists) -> Result<Lists, Memory>
    requires few { length cross.now < 2 ^ 32 }
    requires within { All (λ list. All (λ (u : RowId). u.0 < length cross.now) list) cross.now }
    ensures nexts { IfOk result (λ after. after ≡ nexts cross.now) }
    ensures each { IfOk result (λ after. length after ≡ length cross.now) }
    ensures within { IfOk result (λ after. All (λ list. All (λ (v : RowId). v.0 < length cross.now) list) after) }
{
    let entries = entries_of(alloc, cross)?;
    let after = by_key(alloc, cross.len() as u32, entries.as_slice())?;
    Ok(after)
}

// Each task of each list, beside the number of its list.
fn entries_of(alloc: Global, cross: &Lists) -> Result<Vec<(u32, RowId)>, Memory>
    requires { length cross.now < 2 ^ 32 }
    ensures { IfOk result (λ entries. entries.items ≡ turned 0 cross.now) }
{
    let mut entries = Vec::with_capacity(alloc, cross.total())?;
    for at in 0..cross.len() {
        push_entries(&mut entries, RowId(at as u32), cross.list(at))?;
    }
    Ok(entries)
}

// Appends each of some tasks beside a number.
fn push_entries(into: &mut Vec<(u32, RowId)>, number: RowId, tasks: &[RowId]) -> Result<(), Memory>
    ensures { OnOk result (into.new.items ≡ into.old.items ++ map (λ r. (r.0, number)) tasks.now) }
{
    for task in tasks {
        into.push((task.0, number))?;
    }
    Ok(())
}
