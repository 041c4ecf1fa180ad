// Threads may share plans.
use crate::plan::InspPlan;

fn is_shared<T: Send + Sync>(value: &T) {
    let _ = value;
}

/// It has a proof only because plans may be sent to other threads and shared by them.
pub fn all_are_shared(plan: &InspPlan) {
    is_shared(plan);
}
