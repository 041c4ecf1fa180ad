// Threads may share works.
use crate::work::Work;

fn is_shared<T: Send + Sync>(value: &T) {
    let _ = value;
}

/// It has a proof only because a work may be sent to other threads and shared by them.
pub fn works_are_shared(work: &Work) {
    is_shared(&work.nest);
    is_shared(&work.arrays);
    is_shared(&work.values);
    is_shared(&work.sched);
}
