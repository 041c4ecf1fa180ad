// A work.
use loop_core::arrays::Arrays;
use loop_core::nest::Nest;
use loop_core::values::Values;
use sched_types::sched::Sched;

/// A nest, its index arrays, its data arrays at the start, and who does which rows.
#[derive(Drop)]
pub struct Work {
    pub nest: Nest,
    pub arrays: Arrays,
    pub values: Values,
    pub sched: Sched,
}
