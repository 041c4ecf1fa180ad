//! All workers of a work run their scripts to their ends on its board, in threads where these can be had.
#![tactic(auto)]

mod ends;
mod hand;
mod room;
mod shared;
mod splits;
mod start;
pub mod team;
mod turns;
