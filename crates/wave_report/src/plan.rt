// The printed chain, tasks and waits of a plan.
ghost use Rattle.std.specs.Prelude.{◌≡◌, ◌++◌, codes, IfOk, OnOk};
ghost use Rattle.std.specs.List.{flat_map};
ghost use Rattle.std.specs.String.{string_bytes};
ghost use Rattle.wave_report.specs.Line.{line};
ghost use Rattle.wave_report.specs.PlanText.{rows_text, waits_text, task_text, worker_text, plan_text};

use crate::pieces::{put, put_number};
use sched_types::lists::Wait;
use sched_types::sched::{Sched, Task};
use std::alloc::Global;
use wave_base::types::{Memory, RowId};

/// The text of a plan without its summary: a line `chain` with the rows of the chain, and for each worker a
/// line `worker W` and for each of its tasks a line `task rows ROW .. waits WORKER:COUNT ..`.
///
/// A worker without tasks has its line. It fails out of memory alone. One text, linear in its length.
pub fn plan(alloc: Global, chain: &[RowId], sched: &Sched) -> Result<String, Memory>
    ensures { IfOk result (λ text. string_bytes text ≡ plan_text chain.now sched.now) }
{
    let mut text = String::new(alloc);
    put_chain(&mut text, chain)?;
    for (worker, tasks) in sched.workers.as_slice().iter().enumerate() {
        put_worker(&mut text, worker, tasks.as_slice())?;
    }
    Ok(text)
}

fn put_chain(text: &mut String, chain: &[RowId]) -> Result<(), Memory>
    ensures { OnOk result (string_bytes text.new ≡ string_bytes text.old ++ line (codes "chain" ++ rows_text chain.now)) }
{
    put(text, "chain")?;
    put_rows(text, chain)?;
    put(text, "\n")
}

fn put_worker(text: &mut String, worker: usize, tasks: &[Task]) -> Result<(), Memory>
    ensures { OnOk result (string_bytes text.new ≡ string_bytes text.old ++ worker_text worker tasks.now) }
{
    put_number(text, "worker ", worker as u64)?;
    put(text, "\n")?;
    put_tasks(text, tasks)
}

fn put_tasks(text: &mut String, tasks: &[Task]) -> Result<(), Memory>
    ensures { OnOk result (string_bytes text.new ≡ string_bytes text.old ++ flat_map task_text tasks.now) }
{
    for task in tasks {
        put_task(text, task)?;
    }
    Ok(())
}

fn put_task(text: &mut String, task: &Task) -> Result<(), Memory>
    ensures { OnOk result (string_bytes text.new ≡ string_bytes text.old ++ task_text task.now) }
{
    put(text, "task rows")?;
    put_rows(text, task.rows.as_slice())?;
    put(text, " waits")?;
    put_waits(text, task.waits.as_slice())?;
    put(text, "\n")
}

// Puts each row after a space.
fn put_rows(text: &mut String, rows: &[RowId]) -> Result<(), Memory>
    ensures { OnOk result (string_bytes text.new ≡ string_bytes text.old ++ rows_text rows.now) }
{
    for row in rows {
        put_number(text, " ", u64::from(row.0))?;
    }
    Ok(())
}

// Puts each wait after a space.
fn put_waits(text: &mut String, waits: &[Wait]) -> Result<(), Memory>
    ensures { OnOk result (string_bytes text.new ≡ string_bytes text.old ++ waits_text waits.now) }
{
    for wait in waits {
        put_number(text, " ", u64::from(wait.worker))?;
        put_number(text, ":", u64::from(wait.count))?;
    }
    Ok(())
}
