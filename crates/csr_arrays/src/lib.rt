//! The compressed arrays of a matrix, by rows or by columns.
#![tactic(auto)]

mod axis;
mod bucketed;
pub mod compressed;
pub mod csr;
pub mod plain;
mod row;
mod rows;
