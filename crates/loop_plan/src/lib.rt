//! From an accepted loop over its arrays to its plan: the dependent rows, levels, tasks and waits.
#![tactic(auto)]

mod dependences;
mod inspection;
pub mod laws;
pub mod numbers;
pub mod plan;
