// Tasks for each worker.
ghost use Rattle.std.specs.Prelude.{◌≡◌, ◌≤◌, [], length, replicate, IfOk};
ghost use Rattle.super_tasks.specs.Shares.{AreEven, AreWeights, groups};

use crate::share::share_out;
use sched_types::sched::{RowTaskList, RowTaskLists, Tasks};
use std::alloc::Global;
use wave_base::types::Memory;
use wave_levels::grouped::Levels;

/// Each worker's tasks, by level. `workers` is from 1 to 64, and each row's weight from 1 to 2^32.
///
/// Of a level of weight T, the row before which stand rows of weight B goes to worker
/// floor(B * workers / T). A task is the nonempty list of one worker's rows of a level, ascending. The
/// work is linear in the rows.
pub fn group(alloc: Global, levels: &Levels, weights: &[u64], workers: u32) -> Result<Tasks, Memory>
    requires weights { AreWeights (length levels.now) weights.now }
    requires some { 1 ≤ workers }
    requires few { workers ≤ 64 }
    ensures tasks { IfOk result (λ tasks. tasks.workers ≡ groups levels.now weights.now workers) }
    ensures even { IfOk result (λ tasks. AreEven levels.now weights.now workers tasks.workers) }
{
    let mut lists = empty_lists(alloc, workers)?;
    for level in 0..levels.count() {
        share_out(alloc, &mut lists, level, levels.rows(level), weights)?;
    }
    Ok(Tasks {
        workers: RowTaskLists::from_vec(lists),
    })
}

// As many empty lists as there are workers.
fn empty_lists(alloc: Global, workers: u32) -> Result<Vec<RowTaskList>, Memory>
    ensures { IfOk result (λ lists. lists.items ≡ replicate workers []) }
{
    let mut lists = Vec::with_capacity(alloc, workers as usize)?;
    for _worker in 0..workers {
        lists.push(RowTaskList::new(alloc))?;
    }
    Ok(lists)
}
