//! Constraints over index terms: their truth, and the atoms of a system of them.
#![tactic(auto)]

pub mod env;
mod listing;
pub mod plain;
pub mod reach;
pub mod same;
pub mod small;
pub mod system;
pub mod truth;
pub mod universe;
