//! The values of a row's instances, in one pass over the row.
#![tactic(auto)]

pub mod book;
pub mod laws;
pub mod row;
