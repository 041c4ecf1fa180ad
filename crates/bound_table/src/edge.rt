// Constraints that tightened a table.

/// A constraint between two places, and the number of the step that gives it.
#[derive(Clone, Copy, Debug)]
pub struct Edge {
    pub a: usize,
    pub b: usize,
    pub c: i64,
    pub step: u64,
}
