// Tasks by number: worker after worker, and each worker's tasks in their order.
ghost use Rattle.std.specs.Prelude.{◌≡◌, ◌<◌, ◌+◌, ◌^◌, ◌++◌, All, length, map, replicate, vec_len, IfOk, OnOk};
ghost use Rattle.std.specs.List.{range_with_len};
ghost use Rattle.wave_base.specs.declared.types.RowId.{RowId};
ghost use Rattle.sched_types.specs.declared.sched.RowTask.{RowTask};
ghost use Rattle.wait_sparsify.specs.Numbered.{owners_from, places_from, rows_from};
ghost use Rattle.wait_sparsify.specs.Written.{written_lists};

use crate::stamped::stamp;
use row_graph::lists::Lists;
use sched_types::sched::{RowTask, RowTaskList};
use std::alloc::Global;
use wave_base::types::Memory;

/// The worker of each task, and its place among that worker's tasks.
#[derive(Debug, Drop)]
pub struct Seats {
    pub owners: Vec<u32>,
    pub places: Vec<u32>,
}

// A number with room for one more in 32 bits. So many workers or tasks as it refuses have no room in
// the lists of numbered tasks.
pub fn small(number: usize) -> Result<u32, Memory>
    ensures same { IfOk result (λ n. n ≡ number) }
    ensures room { IfOk result (λ n. n + 1 < 2 ^ 32) }
{
    if number < u32::MAX as usize {
        Ok(number as u32)
    } else {
        Err(Memory)
    }
}

/// Where each task stands.
pub fn seats_of(alloc: Global, lists: &[RowTaskList]) -> Result<Seats, Memory>
    ensures owners { IfOk result (λ seats. seats.owners.items ≡ owners_from 0 lists.now) }
    ensures places { IfOk result (λ seats. seats.places.items ≡ places_from lists.now) }
    ensures small_owners { IfOk result (λ seats. All (λ w. w + 1 < 2 ^ 32) seats.owners.items) }
    ensures small_places { IfOk result (λ seats. All (λ p. p + 1 < 2 ^ 32) seats.places.items) }
{
    let mut seats = Seats {
        owners: Vec::new(alloc),
        places: Vec::new(alloc),
    };
    for worker in 0..lists.len() {
        let list = &lists[worker];
        push_seats(&mut seats, small(worker)?, list.as_slice().len())?;
    }
    Ok(seats)
}

// Appends the seats of one worker's tasks.
fn push_seats(seats: &mut Seats, worker: u32, many: usize) -> Result<(), Memory>
    requires { worker + 1 < 2 ^ 32 }
    ensures owners { OnOk result (seats.new.owners.items ≡ seats.old.owners.items ++ replicate many worker) }
    ensures places { OnOk result (seats.new.places.items ≡ seats.old.places.items ++ range_with_len 0 many) }
    ensures small_owners { OnOk result (All (λ w. w + 1 < 2 ^ 32) seats.old.owners.items
        → All (λ w. w + 1 < 2 ^ 32) seats.new.owners.items) }
    ensures small_places { OnOk result (All (λ p. p + 1 < 2 ^ 32) seats.old.places.items
        → All (λ p. p + 1 < 2 ^ 32) seats.new.places.items) }
{
    for at in 0..many {
        seats.owners.push(worker)?;
        seats.places.push(small(at)?)?;
    }
    Ok(())
}

/// The rows of each task.
pub fn rows_of_each(alloc: Global, lists: &[RowTaskList]) -> Result<Lists, Memory>
    ensures { IfOk result (λ rows. rows ≡ rows_from lists.now) }
{
    let mut rows = Lists::none(alloc)?;
    for worker in 0..lists.len() {
        let list = &lists[worker];
        rows = with_rows(rows, list.as_slice())?;
    }
    Ok(rows)
}

// The lists with the rows of one worker's tasks at their end.
fn with_rows(before: Lists, tasks: &[RowTask]) -> Result<Lists, Memory>
    ensures { IfOk result (λ rows. rows ≡ before ++ map (λ (t : RowTask). t.rows) tasks.now) }
{
    let mut rows = before;
    for at in 0..tasks.len() {
        let task = &tasks[at];
        rows = rows.with_list(task.rows.as_slice())?;
    }
    Ok(rows)
}

/// The number of the task of each of `n` rows.
pub fn task_of_each(alloc: Global, n: u32, rows: &Lists) -> Result<Vec<u32>, Memory>
    requires within { All (λ list. All (λ (r : RowId). r.0 < n) list) rows.now }
    requires few { length rows.now < 2 ^ 32 }
    ensures tasks { IfOk result (λ tasks. tasks.items ≡ written_lists 0 rows.now (replicate n 0)) }
    ensures len { IfOk result (λ tasks. vec_len tasks ≡ n) }
{
    let mut tasks = vec![in alloc; 0u32; n as usize]?;
    for number in 0..rows.len() {
        stamp(&mut tasks, number as u32, rows.list(number));
    }
    Ok(tasks)
}
