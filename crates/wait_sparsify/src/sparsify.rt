// The waits that tasks need.
ghost use Rattle.std.specs.Prelude.{◌≡◌, ◌<◌, ◌+◌, ◌^◌, length, replicate, IfOk};
ghost use Rattle.row_graph.specs.Predecessors.{ArePredecessors, IsGraph};
ghost use Rattle.sched_types.specs.Fits.{Fits};
ghost use Rattle.sched_types.specs.Kept.{HasKeptWaits};
ghost use Rattle.wait_sparsify.specs.Crossing.{crossing_lists};
ghost use Rattle.wait_sparsify.specs.Depends.{ArePlaced, AreLevelled, CountsCross, Depends};
ghost use Rattle.wait_sparsify.specs.Numbered.{owners_from, rows_from};
ghost use Rattle.wait_sparsify.specs.Written.{written_lists};

use crate::attached::attach;
use crate::crossing::{Seated, crossing_pairs};
use crate::kept::kept_of_each;
use crate::numbered::{rows_of_each, seats_of, small, task_of_each};
use row_graph::firsts::firsts_of_each;
use row_graph::lists::Lists;
use row_graph::preds::Preds;
use sched_types::sched::{RowTaskList, Sched, Tasks};
use std::alloc::Global;
use wave_base::types::Memory;

/// The tasks, each with the waits that it needs, and the number of cross pairs.
///
/// A cross pair is two tasks on different workers, where a row of the second depends on a row of the
/// first. The second waits for the first unless some task stands between the two. Each row stands in
/// exactly one task. Where levels rise, the schedule fits the dependences. The work for a task is linear in its rows, their predecessors, the tasks of
/// these and the tasks before those.
pub fn sparsify(alloc: Global, preds: &Preds, tasks: Tasks) -> Result<(Sched, u64), Memory>
    requires { ArePlaced (length preds.now) tasks.workers }
    ensures kept { IfOk result (λ made. HasKeptWaits (Depends preds.now) tasks.workers made.0.workers) }
    ensures cross { IfOk result (λ made. CountsCross (Depends preds.now) tasks.workers made.1) }
    ensures fits { IfOk result (λ made. AreLevelled (Depends preds.now) tasks.workers
        → Fits (length preds.now) (Depends preds.now) made.0.workers) }
{
    let lists = tasks.workers.as_slice();
    let seats = seats_of(alloc, lists)?;
    let cross = cross_of_each(alloc, preds, lists, seats.owners.as_slice())?;
    let kept = kept_of_each(alloc, seats.owners.as_slice(), &cross)?;
    let workers = attach(alloc, lists, &seats, &kept)?;
    Ok((Sched { workers }, cross.total() as u64))
}

// For each task the tasks before it on other workers, by number.
fn cross_of_each(
    alloc: Global,
    preds: &Preds,
    lists: &[RowTaskList],
    owners: &[u32],
) -> Result<Lists, Memory>
    requires placed { ArePlaced (length preds.now) lists.now }
    requires owners { owners.now ≡ owners_from 0 lists.now }
    ensures cross { IfOk result (λ cross. ArePredecessors (length (rows_from lists.now))
        (crossing_lists preds.now (owners_from 0 lists.now)
        (written_lists 0 (rows_from lists.now) (replicate (length preds.now) 0)) 0 (rows_from lists.now))
        cross) }
    ensures few { IfOk result (λ _cross. length (rows_from lists.now) + 1 < 2 ^ 32) }
    ensures graph { IsGraph preds.now }
{
    let n = preds.rows();
    let rows = rows_of_each(alloc, lists)?;
    let many = small(rows.len())?;
    let tasks = task_of_each(alloc, n, &rows)?;
    let seated = Seated {
        owners,
        tasks: tasks.as_slice(),
    };
    let pairs = crossing_pairs(alloc, preds, seated, &rows)?;
    let cross = firsts_of_each(alloc, many, pairs)?;
    Ok(cross)
}
