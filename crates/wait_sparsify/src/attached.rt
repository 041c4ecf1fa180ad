// Tasks with their waits.
ghost use Rattle.std.specs.Prelude.{◌≡◌, ◌<◌, ◌+◌, ◌^◌, [], All, length, slice_index_or, IfOk};
ghost use Rattle.wave_base.specs.declared.types.RowId.{RowId};
ghost use Rattle.wait_sparsify.specs.Attached.{attached, attached_list, waits_for, with_waits};

use crate::numbered::Seats;
use row_graph::lists::Lists;
use sched_types::lists::{Wait, WaitList};
use sched_types::sched::{RowTask, RowTaskList, Task, TaskList, TaskLists};
use std::alloc::Global;
use wave_base::types::{Memory, RowId};

/// Each task with waits for the tasks of the list of its number. The first task has number 0.
pub fn attach(
    alloc: Global,
    lists: &[RowTaskList],
    seats: &Seats,
    kept: &Lists,
) -> Result<TaskLists, Memory>
    requires owners { All (λ list. All (λ (u : RowId). u.0 < length seats.now.owners.items) list) kept.now }
    requires places { length seats.now.places.items ≡ length seats.now.owners.items }
    requires small { All (λ p. p + 1 < 2 ^ 32) seats.now.places.items }
    ensures { IfOk result (λ workers. workers
        ≡ attached seats.now.owners.items seats.now.places.items kept.now 0 lists.now) }
{
    let mut workers = Vec::with_capacity(alloc, lists.len())?;
    let mut number = 0usize;
    for worker in 0..lists.len() {
        let list = &lists[worker];
        workers.push(attach_list(alloc, list.as_slice(), seats, kept, number)?)?;
        number = after(number, list.as_slice().len())?;
    }
    Ok(TaskLists::from_vec(workers))
}

// A number that many further on.
fn after(number: usize, many: usize) -> Result<usize, Memory>
    ensures { IfOk result (λ sum. sum ≡ number + many) }
{
    match number.checked_add(many) {
        Some(sum) => Ok(sum),
        None => Err(Memory),
    }
}

// The tasks of one worker with their waits. The first has a number.
fn attach_list(
    alloc: Global,
    tasks: &[RowTask],
    seats: &Seats,
    kept: &Lists,
    number: usize,
) -> Result<TaskList, Memory>
    requires owners { All (λ list. All (λ (u : RowId). u.0 < length seats.now.owners.items) list) kept.now }
    requires places { length seats.now.places.items ≡ length seats.now.owners.items }
    requires small { All (λ p. p + 1 < 2 ^ 32) seats.now.places.items }
    ensures { IfOk result (λ list. list
        ≡ attached_list seats.now.owners.items seats.now.places.items kept.now number tasks.now) }
{
    let mut list = TaskList::new(alloc);
    for at in 0..tasks.len() {
        let number = after(number, at)?;
        let waits = waits_of(alloc, seats, firsts_of(kept, number))?;
        list.push(attach_one(alloc, &tasks[at], waits)?)?;
    }
    Ok(list)
}

// The list of a number.
fn firsts_of(kept: &Lists, number: usize) -> &[RowId]
    ensures { result.now ≡ slice_index_or kept.now number [] }
{
    if number < kept.len() {
        kept.list(number)
    } else {
        &[]
    }
}

// A task with waits.
fn attach_one(alloc: Global, task: &RowTask, waits: WaitList) -> Result<Task, Memory>
    ensures { IfOk result (λ made. made ≡ with_waits waits task.now) }
{
    Ok(Task {
        level: task.level,
        rows: task.rows.copy(alloc)?,
        waits,
    })
}

// The waits for some tasks.
fn waits_of(alloc: Global, seats: &Seats, tasks: &[RowId]) -> Result<WaitList, Memory>
    requires owners { All (λ (u : RowId). u.0 < length seats.now.owners.items) tasks.now }
    requires places { length seats.now.places.items ≡ length seats.now.owners.items }
    requires small { All (λ p. p + 1 < 2 ^ 32) seats.now.places.items }
    ensures { IfOk result (λ waits. waits
        ≡ waits_for seats.now.owners.items seats.now.places.items tasks.now) }
{
    let mut waits = WaitList::new(alloc);
    for task in tasks {
        waits.push(Wait {
            worker: seats.owners[task.0 as usize],
            count: seats.places[task.0 as usize] + 1,
        })?;
    }
    Ok(waits)
}
