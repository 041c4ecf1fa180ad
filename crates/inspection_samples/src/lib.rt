//! Inspection plans by hand, and arrays of matrices, on which the tests and benches of inspectors run.
#![tactic(auto)]

pub mod matrices;
mod operations;
pub mod plans;
