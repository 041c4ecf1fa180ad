//! A worker runs its script on the board.
#![tactic(auto)]

pub mod drive;
mod flags;
mod looks;
mod rows;
mod run;
pub mod worker;
