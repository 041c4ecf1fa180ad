//! The rows of each level shared out among workers, as tasks.
#![tactic(auto)]

pub mod group;
pub mod laws;
pub mod plain;
mod share;
