//! Schedules: tasks of rows for each worker, with the waits between them.
#![tactic(auto)]

pub mod lists;
pub mod sched;
pub mod shared;
