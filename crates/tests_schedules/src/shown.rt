// Rows, levels, tasks and plans as text.
use plan_build::build::Built;
use sched_types::lists::Wait;
use sched_types::sched::{RowTask, Sched, Task, Tasks};
use std::alloc::Global;
use wave_base::types::{Memory, RowId};

pub fn push_number(
    alloc: Global,
    text: &mut String,
    word: &str,
    number: u32,
) -> Result<(), Memory> {
    text.push_str(format!(in alloc; "{word}{number}")?.as_str())?;
    Ok(())
}

pub fn push_rows(alloc: Global, text: &mut String, rows: &[RowId]) -> Result<(), Memory> {
    for row in rows {
        push_number(alloc, text, " ", row.0)?;
    }
    Ok(())
}

fn push_row_tasks(alloc: Global, text: &mut String, tasks: &[RowTask]) -> Result<(), Memory> {
    text.push_str(" worker")?;
    for task in tasks {
        push_number(alloc, text, " level ", task.level)?;
        push_rows(alloc, text, task.rows.as_slice())?;
    }
    Ok(())
}

// Each worker's tasks with their levels.
pub fn tasks_shown(alloc: Global, tasks: &Tasks) -> Result<String, Memory> {
    let mut text = String::new(alloc);
    for list in tasks.workers.as_slice() {
        push_row_tasks(alloc, &mut text, list.as_slice())?;
    }
    Ok(text)
}

fn push_waits(alloc: Global, text: &mut String, waits: &[Wait]) -> Result<(), Memory> {
    for wait in waits {
        push_number(alloc, text, " ", wait.worker)?;
        push_number(alloc, text, ":", wait.count)?;
    }
    Ok(())
}

fn push_tasks(alloc: Global, text: &mut String, tasks: &[Task]) -> Result<(), Memory> {
    text.push_str(" worker")?;
    for task in tasks {
        push_number(alloc, text, " task ", task.level)?;
        push_rows(alloc, text, task.rows.as_slice())?;
        push_waits(alloc, text, task.waits.as_slice())?;
    }
    Ok(())
}

// Each worker's tasks with their levels and their waits.
pub fn push_sched(alloc: Global, text: &mut String, sched: &Sched) -> Result<(), Memory> {
    for list in sched.workers.as_slice() {
        push_tasks(alloc, text, list.as_slice())?;
    }
    Ok(())
}

// All that a plan says.
pub fn plan_shown(alloc: Global, built: &Built) -> Result<String, Memory> {
    let mut text = String::new(alloc);
    text.push_str(format!(in alloc;
        "edges {} levels {} cross {} chain",
        built.edges, built.levels, built.cross
    )?
    .as_str())?;
    push_rows(alloc, &mut text, built.chain.as_slice())?;
    push_sched(alloc, &mut text, &built.sched)?;
    Ok(text)
}
