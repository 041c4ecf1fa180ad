// Pairs of numbered tasks on different workers.
ghost use Rattle.std.specs.Prelude.{◌≡◌, ◌<◌, ◌^◌, ◌++◌, All, length, OnOk, IfOk};
ghost use Rattle.wave_base.specs.declared.types.RowId.{RowId};
ghost use Rattle.wait_sparsify.specs.Crossing.{crossing, crossing_lists, crossing_rows};

use row_graph::lists::Lists;
use row_graph::preds::Preds;
use std::alloc::Global;
use wave_base::types::{Memory, RowId};

/// The worker of each task, and the task of each row.
#[derive(Clone, Copy)]
pub struct Seated<'a> {
    pub owners: &'a [u32],
    pub tasks: &'a [u32],
}

/// All pairs of tasks on different workers that rows give, with repeats.
pub fn crossing_pairs(
    alloc: Global,
    preds: &Preds,
    seated: Seated,
    rows: &Lists,
) -> Result<Vec<(RowId, RowId)>, Memory>
    requires within { All (λ list. All (λ (r : RowId). r.0 < length preds.now) list) rows.now }
    requires owners { length seated.owners.now ≡ length rows.now }
    requires tasks { length seated.tasks.now ≡ length preds.now }
    requires below { All (λ t. t < length rows.now) seated.tasks.now }
    requires few { length rows.now < 2 ^ 32 }
    ensures { IfOk result (λ pairs. pairs.items
        ≡ crossing_lists preds.now seated.entry.owners.now seated.entry.tasks.now 0 rows.now) }
{
    let mut pairs = Vec::new(alloc);
    for task in 0..rows.len() {
        push_crossing_rows(&mut pairs, preds, seated, task as u32, rows.list(task))?;
    }
    Ok(pairs)
}

// Appends the pairs of one task.
fn push_crossing_rows(
    into: &mut Vec<(RowId, RowId)>,
    preds: &Preds,
    seated: Seated,
    task: u32,
    rows: &[RowId],
) -> Result<(), Memory>
    requires rows { All (λ (r : RowId). r.0 < length preds.now) rows.now }
    requires task { task < length seated.owners.now }
    requires tasks { length seated.tasks.now ≡ length preds.now }
    requires below { All (λ t. t < length seated.owners.now) seated.tasks.now }
    ensures { OnOk result (into.new.items
        ≡ into.old.items ++ crossing_rows preds.now seated.entry.owners.now seated.entry.tasks.now task rows.now) }
{
    for row in rows {
        push_crossing(into, seated, task, preds.before(*row))?;
    }
    Ok(())
}

// Appends the pairs of one row, whose predecessors these are.
fn push_crossing(
    into: &mut Vec<(RowId, RowId)>,
    seated: Seated,
    task: u32,
    before: &[RowId],
) -> Result<(), Memory>
    requires before { All (λ (r : RowId). r.0 < length seated.tasks.now) before.now }
    requires task { task < length seated.owners.now }
    requires below { All (λ t. t < length seated.owners.now) seated.tasks.now }
    ensures { OnOk result (into.new.items
        ≡ into.old.items ++ crossing seated.entry.owners.now seated.entry.tasks.now task before.now) }
{
    for row in before {
        let first = seated.tasks[row.0 as usize];
        if seated.owners[first as usize] != seated.owners[task as usize] {
            into.push((RowId(first), RowId(task)))?;
        }
    }
    Ok(())
}
