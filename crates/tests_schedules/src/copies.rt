// A copy has the tasks, the rows and the waits of its source.
use crate::shown::push_sched;
use sched_types::lists::{RowList, Wait, WaitList};
use sched_types::sched::{RowTaskList, RowTaskLists, Sched, Task, TaskList, TaskLists, Tasks};
use sched_types::shared::all_are_shared;
use std::alloc::Global;
use std::test::Fail;
use wave_base::types::{Memory, RowId};

// A task of two rows with six waits, more than a list of waits has without memory.
fn task_with_waits(alloc: Global) -> Result<Task, Memory> {
    let mut waits = WaitList::new(alloc);
    for worker in 0..6u32 {
        waits.push(Wait { worker, count: 7 })?;
    }
    Ok(Task {
        level: 2,
        rows: RowList::from_slice(alloc, [RowId(3), RowId(5)].as_slice())?,
        waits,
    })
}

// A schedule of that one task.
fn sched_of_one(alloc: Global) -> Result<Sched, Memory> {
    let mut list = TaskList::new(alloc);
    list.push(task_with_waits(alloc)?)?;
    let mut lists = Vec::new(alloc);
    lists.push(TaskList::from_vec(list.into_vec()))?;
    Ok(Sched {
        workers: TaskLists::from_vec(lists),
    })
}

fn copy_shown(alloc: Global) -> Result<String, Memory> {
    let sched = sched_of_one(alloc)?;
    let copy = sched.copy(alloc)?;
    let mut text = String::new(alloc);
    push_sched(alloc, &mut text, &copy)?;
    Ok(text)
}

#[test]
fn a_copy_has_all_waits(rt: HostRuntime) -> Result<(), Fail> {
    let text = copy_shown(rt.alloc())?;
    assert_eq!(rt; text.as_str(), " worker task 2 3 5 0:7 1:7 2:7 3:7 4:7 5:7");
    Ok(())
}

// Tasks of one worker who has none.
fn no_tasks(alloc: Global) -> Result<Tasks, Memory> {
    let none = RowTaskList::new(alloc).into_vec();
    let mut lists = Vec::new(alloc);
    lists.push(RowTaskList::from_vec(none))?;
    Ok(Tasks {
        workers: RowTaskLists::from_vec(lists),
    })
}

fn share_schedules(alloc: Global) -> Result<usize, Memory> {
    let sched = sched_of_one(alloc)?;
    let tasks = no_tasks(alloc)?;
    all_are_shared(&sched, &tasks);
    Ok(tasks.workers.into_vec().len())
}

#[test]
fn threads_may_share_schedules(rt: HostRuntime) -> Result<(), Fail> {
    let many = share_schedules(rt.alloc())?;
    assert_eq!(rt; many, 1);
    Ok(())
}
