//! The level of each row, the rows of each level, and one longest chain.
#![tactic(auto)]

pub mod chains;
mod each;
pub mod grouped;
pub mod levels;
pub mod plain;
