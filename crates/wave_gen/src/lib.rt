//! Made matrices and right sides, each determined by a number or two.
#![tactic(auto)]

mod draws;
pub mod grid;
pub mod laws;
pub mod lower;
pub mod right_side;
mod text;
