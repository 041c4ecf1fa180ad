//! The references of a nest to the arrays that it writes, and the relations between them.
#![tactic(auto)]

mod accesses;
pub mod bases;
pub mod extract;
pub mod laws;
pub mod walk;
