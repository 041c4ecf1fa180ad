//! Cells of arrays, and the words in them.
#![tactic(auto)]

pub mod laws;
