//! Least bounds between places: a table that is closed under sums, and the marks by which each bound's
//! way is read off.
#![tactic(auto)]

pub mod between;
pub mod edge;
pub mod plain;
pub mod queues;
pub mod row;
pub mod table;
pub mod waiting;
