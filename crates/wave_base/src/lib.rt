//! Words of 64 bits and lists of them, rows, array numbers, cells, out of memory, and a counter of steps.
#![tactic(auto)]

pub mod steps;
pub mod types;
pub mod w64;
pub mod words;
