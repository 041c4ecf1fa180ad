//! The check of declared properties: whether arrays have them all, or which is the first that
//! fails, and where.
#![tactic(auto)]

mod before;
pub mod check;
mod diagonal;
mod entry;
mod injective;
pub mod laws;
mod least;
mod neighbours;
mod places;
pub mod plain;
mod range;
mod rule;
mod segment;
mod segmented;
mod skips;
