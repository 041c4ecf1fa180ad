//! Which rows stand before each row: a list of pairs becomes lists of predecessors, in linear work.
#![tactic(auto)]

pub mod buckets;
mod distinct;
pub mod firsts;
pub mod lists;
pub mod plain;
pub mod preds;
mod rising;
mod turned;
