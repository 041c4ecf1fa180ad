// What stands before each task.

/// Is passed before each task of a worker, on that worker's thread.
pub trait Gate {
    /// `task` is the task's number in the worker's own list. Both numbers count from 0.
    fn pass(&self, worker: u32, task: u32);
}

/// The gate that does nothing.
#[derive(Clone, Copy, Debug, PartialEq, Eq)]
pub struct Free;

impl Gate for Free {
    fn pass(&self, _worker: u32, _task: u32) {}
}
