//! The canonical text of a loop nest.
#![tactic(auto)]

mod exprs;
mod heads;
mod items;
mod names;
mod order;
pub mod print;
mod terms;
