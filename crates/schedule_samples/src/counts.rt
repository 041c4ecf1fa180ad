// How much a schedule has.
use sched_types::sched::{Sched, Task};

/// How many tasks and how many waits a schedule has.
pub fn tasks_and_waits(sched: &Sched) -> (usize, usize) {
    let mut tasks = 0usize;
    let mut waits = 0usize;
    for list in sched.workers.as_slice() {
        tasks = tasks.saturating_add(list.as_slice().len());
        waits = waits.saturating_add(waits_of(list.as_slice()));
    }
    (tasks, waits)
}

// How many waits some tasks have.
fn waits_of(tasks: &[Task]) -> usize {
    let mut waits = 0usize;
    for task in tasks {
        waits = waits.saturating_add(task.waits.as_slice().len());
    }
    waits
}
