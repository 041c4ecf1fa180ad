// The tasks that each task has to wait for, by number.
ghost use Rattle.std.specs.Prelude.{◌≡◌, ◌<◌, ◌+◌, ◌^◌, All, length, drop, replicate, slice_index_or, IfOk};
ghost use Rattle.wave_base.specs.declared.types.RowId.{RowId};
ghost use Rattle.row_graph.specs.Rows.{row_zero};
ghost use Rattle.wait_sparsify.specs.Survivors.{is_dropped, is_followed, kept_lists, nexts, survivors};

use crate::followers::followers;
use crate::stamped::{is_stamped, stamp};
use row_graph::lists::Lists;
use std::alloc::Global;
use wave_base::types::{Memory, RowId};

/// The stamps against which the tasks before a task are tried.
#[derive(Clone, Copy)]
pub struct Stamps<'a> {
    /// One more than the last worker that has waited for a task.
    pub earlier: &'a [u32],
    pub worker: u32,
    /// One more than the last task that a task is crossed with.
    pub among: &'a [u32],
    pub task: u32,
}

/// For each task the tasks that it has to wait for.
///
/// The work for a task is linear in the tasks before it and, for one of each worker, in those that
/// this one is crossed with.
pub fn kept_of_each(alloc: Global, owners: &[u32], cross: &Lists) -> Result<Lists, Memory>
    requires owners { length owners.now ≡ length cross.now }
    requires small { All (λ w. w + 1 < 2 ^ 32) owners.now }
    requires few { length cross.now < 2 ^ 32 }
    requires within { All (λ list. All (λ (u : RowId). u.0 < length cross.now) list) cross.now }
    ensures { IfOk result (λ kept. kept ≡ kept_lists (nexts cross.now) owners.now 0
        (replicate (length cross.now) 0) (replicate (length cross.now) 0) cross.now) }
{
    let after = followers(alloc, cross)?;
    let mut earlier = vec![in alloc; 0u32; cross.len()]?;
    let mut among = vec![in alloc; 0u32; cross.len()]?;
    let mut kept = Lists::none(alloc)?;
    for task in 0..cross.len() {
        let firsts = cross.list(task);
        let worker = owners[task] + 1;
        stamp(&mut among, task as u32 + 1, firsts);
        let stamps = Stamps {
            earlier: earlier.as_slice(),
            worker,
            among: among.as_slice(),
            task: task as u32 + 1,
        };
        kept = kept.with_list(surviving(alloc, owners, stamps, &after, firsts)?.as_slice())?;
        stamp(&mut earlier, worker, firsts);
    }
    Ok(kept)
}

// The tasks among some that aren't dropped.
fn surviving(
    alloc: Global,
    owners: &[u32],
    stamps: Stamps,
    after: &Lists,
    tasks: &[RowId],
) -> Result<Vec<RowId>, Memory>
    requires owners { All (λ (u : RowId). u.0 < length owners.now) tasks.now }
    requires earlier { length stamps.earlier.now ≡ length owners.now }
    requires after { length after.now ≡ length owners.now }
    requires within { All (λ list. All (λ (u : RowId). u.0 < length stamps.among.now) list) after.now }
    ensures { IfOk result (λ kept. kept.items ≡ survivors owners.now stamps.entry.earlier.now stamps.entry.worker
        stamps.entry.among.now stamps.entry.task after.now tasks.now) }
{
    let mut kept = Vec::new(alloc);
    for at in 0..tasks.len() {
        if !dropped(owners, stamps, after, tasks, at) {
            kept.push(tasks[at])?;
        }
    }
    Ok(kept)
}

// Whether the task at a place is dropped.
fn dropped(owners: &[u32], stamps: Stamps, after: &Lists, tasks: &[RowId], at: usize) -> bool
    requires at { at < length tasks.now }
    requires owners { All (λ (u : RowId). u.0 < length owners.now) tasks.now }
    requires earlier { length stamps.earlier.now ≡ length owners.now }
    requires after { length after.now ≡ length owners.now }
    requires within { All (λ list. All (λ (u : RowId). u.0 < length stamps.among.now) list) after.now }
    ensures { result ≡ is_dropped owners.now stamps.entry.earlier.now stamps.entry.worker stamps.entry.among.now
        stamps.entry.task after.now (slice_index_or tasks.now at row_zero) (drop (at + 1) tasks.now) }
{
    let task = tasks[at].0 as usize;
    followed(owners, tasks, at)
        || stamps.earlier[task] == stamps.worker
        || is_stamped(stamps.among, stamps.task, after.list(task))
}

// Whether the next task is on the same worker.
fn followed(owners: &[u32], tasks: &[RowId], at: usize) -> bool
    requires at { at < length tasks.now }
    requires owners { All (λ (u : RowId). u.0 < length owners.now) tasks.now }
    ensures { result ≡ is_followed owners.now (slice_index_or tasks.now at row_zero) (drop (at + 1) tasks.now) }
{
    at + 1 < tasks.len() && owners[tasks[at].0 as usize] == owners[tasks[at + 1].0 as usize]
}
