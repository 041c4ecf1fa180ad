//! From pairs of dependent rows to a schedule that fits them.
#![tactic(auto)]

pub mod build;
pub mod laws;
pub mod plain;
