//! What is claimed of the brackets of a nest, and that its systems of constraints are small.
#![tactic(auto)]

pub mod claim;
pub mod laws;
pub mod listing;
