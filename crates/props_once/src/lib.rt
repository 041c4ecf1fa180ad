//! Properties without those that are declared again: what follows from them is the same.
#![tactic(auto)]

pub mod laws;
pub mod once;
