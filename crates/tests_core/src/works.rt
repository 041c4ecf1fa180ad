// Unit forward substitution with two rows on two workers.
ghost use Rattle.std.specs.Prelude.{◌≡◌, ◌<◌, nat_lt, IsTrue, IfOk, [], ◌∷◌};
ghost use Rattle.std.specs.List.{list_all};
ghost use Rattle.core_law.specs.TwoRows.{two_rows};
ghost use Rattle.core_machine.specs.FitWork.{IsFitWork};
ghost use Rattle.core_machine.specs.TwoRows.{two_index, two_data, two_sched, two_work};

use crate::nest::unit_forward;
use core_machine::laws::two_rows_are_fit;
use core_machine::work::Work;
use loop_core::arrays::Arrays;
use loop_core::values::Values;
use sched_types::lists::{RowList, Wait, WaitList};
use sched_types::sched::{Sched, Task, TaskList, TaskLists};
use std::alloc::Global;
use wave_base::types::{Memory, RowId};
use wave_base::words::Words;

fn words(alloc: Global, items: &[i64]) -> Result<Words, Memory>
    ensures { IfOk result (λ w. w ≡ items.now) }
{
    Ok(Words::from_vec(Vec::from_slice(alloc, items)?))
}

fn index(alloc: Global) -> Result<Arrays, Memory>
    ensures { IfOk result (λ a. a ≡ two_index) }
{
    let mut lists = Vec::new(alloc);
    lists.push(words(alloc, &[0, 1, 3])?)?;
    lists.push(words(alloc, &[0, 0, 1])?)?;
    lists.push(words(alloc, &[0, 2])?)?;
    Ok(Arrays::of(2, 3, lists))
}

fn data(alloc: Global) -> Result<Values, Memory>
    ensures { IfOk result (λ v. v ≡ two_data) }
{
    let mut lists = Vec::new(alloc);
    lists.push(words(alloc, &[])?)?;
    lists.push(words(alloc, &[])?)?;
    lists.push(words(alloc, &[])?)?;
    lists.push(words(alloc, &[1, 2, 1])?)?;
    lists.push(words(alloc, &[7, 20])?)?;
    lists.push(words(alloc, &[0, 0])?)?;
    Ok(Values::of(lists))
}

fn rows(alloc: Global, row: u32) -> Result<RowList, Memory>
    ensures { IfOk result (λ l. l ≡ record { 0 = row } ∷ []) }
{
    RowList::from_slice(alloc, &[RowId(row)])
}

fn task(alloc: Global, level: u32, waits: WaitList) -> Result<TaskList, Memory>
    ensures { IfOk result (λ l. l ≡ record { level = level; rows = record { 0 = level } ∷ []; waits = waits } ∷ []) }
{
    let rows = rows(alloc, level)?;
    let mut tasks = TaskList::new(alloc);
    tasks.push(Task { level, rows, waits })?;
    Ok(tasks)
}

fn schedule(alloc: Global) -> Result<Sched, Memory>
    ensures { IfOk result (λ s. s ≡ two_sched) }
{
    let mut waits = WaitList::new(alloc);
    waits.push(Wait {
        worker: 0,
        count: 1,
    })?;
    let mut workers = Vec::new(alloc);
    workers.push(task(alloc, 0, WaitList::new(alloc))?)?;
    workers.push(task(alloc, 1, waits)?)?;
    Ok(Sched {
        workers: TaskLists::from_vec(workers),
    })
}

/// A fit work: x[0] = 7, and x[1] = 20 - 2 * x[0] on the other worker.
pub fn two_rows(alloc: Global) -> Result<Work, Memory>
    ensures work { IfOk result (λ w. w ≡ two_work) }
    ensures fit { IfOk result (λ w. IsFitWork w) }
{
    two_rows_are_fit();
    Ok(Work {
        nest: unit_forward(alloc)?,
        arrays: index(alloc)?,
        values: data(alloc)?,
        sched: schedule(alloc)?,
    })
}
