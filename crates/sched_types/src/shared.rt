// Threads may share schedules.
use crate::sched::{Sched, Tasks};

fn is_shared<T: Send + Sync>(value: &T) {
    let _ = value;
}

/// It has a proof only because these types may be sent to other threads and shared by them.
pub fn all_are_shared(sched: &Sched, tasks: &Tasks) {
    is_shared(sched);
    is_shared(tasks);
}
