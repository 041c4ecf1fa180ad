// Tasks and schedules.
ghost use Rattle.std.specs.Prelude.{◌≡◌, ◌++◌, ◌∷◌, [], IfOk, OnErr, OnOk};

use crate::lists::{RowList, WaitList};
use std::alloc::Global;
use std::marker::Model;
use wave_base::types::Memory;

/// Rows of one level for one worker.
#[derive(Debug, Drop)]
pub struct RowTask {
    pub level: u32,
    pub rows: RowList,
}

/// Rows of one level for one worker, with the waits before them.
#[derive(Debug, Drop)]
pub struct Task {
    pub level: u32,
    pub rows: RowList,
    pub waits: WaitList,
}

/// The tasks of one worker without waits, in their order. Contracts see a list.
#[derive(Debug, Drop)]
pub struct RowTaskList {
    items: Vec<RowTask>,
}

impl Model for RowTaskList {
    ghost use Rattle.std.specs.Prelude.{List};
    ghost use Rattle.sched_types.specs.declared.sched.RowTask.{RowTask};

    ghost Value = { List RowTask };

    ghost view = { λ l. l.items.items };
}

impl RowTaskList {
    /// No tasks.
    pub fn new(alloc: Global) -> RowTaskList
        ensures { result ≡ [] }
    {
        RowTaskList {
            items: Vec::new(alloc),
        }
    }

    /// One task more, at the end. When out of memory, the list is as before.
    pub fn push(&mut self, task: RowTask) -> Result<(), Memory>
        ensures ok { OnOk result (self.new ≡ self.old ++ task ∷ []) }
        ensures err { OnErr result (self.new ≡ self.old) }
    {
        self.items.push(task)?;
        Ok(())
    }

    /// The tasks as a slice.
    pub fn as_slice(&self) -> &[RowTask]
        ensures { result.now ≡ self.now }
    {
        self.items.as_slice()
    }

    /// The tasks of a `Vec`. It takes no memory.
    pub fn from_vec(items: Vec<RowTask>) -> RowTaskList
        ensures { result ≡ items.items }
    {
        RowTaskList { items }
    }

    /// The tasks as a `Vec`. It takes no memory.
    pub fn into_vec(self) -> Vec<RowTask>
        ensures { result.items ≡ self }
    {
        let RowTaskList { items } = self;
        items
    }
}

/// The tasks of one worker, in their order. Contracts see a list.
#[derive(Debug, Drop)]
pub struct TaskList {
    items: Vec<Task>,
}

impl Model for TaskList {
    ghost use Rattle.std.specs.Prelude.{List};
    ghost use Rattle.sched_types.specs.declared.sched.Task.{Task};

    ghost Value = { List Task };

    ghost view = { λ l. l.items.items };
}

impl TaskList {
    /// No tasks.
    pub fn new(alloc: Global) -> TaskList
        ensures { result ≡ [] }
    {
        TaskList {
            items: Vec::new(alloc),
        }
    }

    /// One task more, at the end. When out of memory, the list is as before.
    pub fn push(&mut self, task: Task) -> Result<(), Memory>
        ensures ok { OnOk result (self.new ≡ self.old ++ task ∷ []) }
        ensures err { OnErr result (self.new ≡ self.old) }
    {
        self.items.push(task)?;
        Ok(())
    }

    /// The tasks of a `Vec`. It takes no memory.
    pub fn from_vec(items: Vec<Task>) -> TaskList
        ensures { result ≡ items.items }
    {
        TaskList { items }
    }

    /// The tasks as a `Vec`. It takes no memory.
    pub fn into_vec(self) -> Vec<Task>
        ensures { result.items ≡ self }
    {
        let TaskList { items } = self;
        items
    }

    /// The tasks as a slice.
    pub fn as_slice(&self) -> &[Task]
        ensures { result.now ≡ self.now }
    {
        self.items.as_slice()
    }

    /// An equal list.
    pub fn copy(&self, alloc: Global) -> Result<TaskList, Memory>
        ensures { IfOk result (λ copy. copy ≡ self.now) }
    {
        let mut items = Vec::with_capacity(alloc, self.items.len())?;
        for task in &self.items {
            items.push(task.copy(alloc)?)?;
        }
        Ok(TaskList { items })
    }
}

impl Task {
    /// An equal task.
    pub fn copy(&self, alloc: Global) -> Result<Task, Memory>
        ensures { IfOk result (λ copy. copy ≡ self.now) }
    {
        Ok(Task {
            level: self.level,
            rows: self.rows.copy(alloc)?,
            waits: self.waits.copy(alloc)?,
        })
    }
}

/// The tasks of each worker without waits. Contracts see a list of lists.
#[derive(Debug, Drop)]
pub struct RowTaskLists {
    items: Vec<RowTaskList>,
}

impl Model for RowTaskLists {
    ghost use Rattle.std.specs.Prelude.{List};
    ghost use Rattle.sched_types.specs.declared.sched.RowTask.{RowTask};

    ghost Value = { List (List RowTask) };

    ghost view = { λ l. l.items.items };
}

impl RowTaskLists {
    /// The lists of a `Vec`. It takes no memory.
    pub fn from_vec(items: Vec<RowTaskList>) -> RowTaskLists
        ensures { result ≡ items.items }
    {
        RowTaskLists { items }
    }

    /// The lists as a slice.
    pub fn as_slice(&self) -> &[RowTaskList]
        ensures { result.now ≡ self.now }
    {
        self.items.as_slice()
    }

    /// The lists as a `Vec`. It takes no memory.
    pub fn into_vec(self) -> Vec<RowTaskList>
        ensures { result.items ≡ self }
    {
        let RowTaskLists { items } = self;
        items
    }
}

/// The tasks of each worker. Contracts see a list of lists.
#[derive(Debug, Drop)]
pub struct TaskLists {
    items: Vec<TaskList>,
}

impl Model for TaskLists {
    ghost use Rattle.std.specs.Prelude.{List};
    ghost use Rattle.sched_types.specs.declared.sched.Task.{Task};

    ghost Value = { List (List Task) };

    ghost view = { λ l. l.items.items };
}

impl TaskLists {
    /// The lists of a `Vec`. It takes no memory.
    pub fn from_vec(items: Vec<TaskList>) -> TaskLists
        ensures { result ≡ items.items }
    {
        TaskLists { items }
    }

    /// The lists as a `Vec`. It takes no memory.
    pub fn into_vec(self) -> Vec<TaskList>
        ensures { result.items ≡ self }
    {
        let TaskLists { items } = self;
        items
    }

    /// The lists as a slice.
    pub fn as_slice(&self) -> &[TaskList]
        ensures { result.now ≡ self.now }
    {
        self.items.as_slice()
    }

    /// Equal lists.
    pub fn copy(&self, alloc: Global) -> Result<TaskLists, Memory>
        ensures { IfOk result (λ copy. copy ≡ self.now) }
    {
        let mut items = Vec::with_capacity(alloc, self.items.len())?;
        for list in &self.items {
            items.push(list.copy(alloc)?)?;
        }
        Ok(TaskLists { items })
    }
}

/// The tasks of each worker, without waits.
#[derive(Debug, Drop)]
pub struct Tasks {
    pub workers: RowTaskLists,
}

/// A schedule: the tasks of each worker, with the waits between them.
#[derive(Debug, Drop)]
pub struct Sched {
    pub workers: TaskLists,
}

impl Sched {
    /// An equal schedule.
    pub fn copy(&self, alloc: Global) -> Result<Sched, Memory>
        ensures { IfOk result (λ copy. copy ≡ self.now) }
    {
        Ok(Sched {
            workers: self.workers.copy(alloc)?,
        })
    }
}
