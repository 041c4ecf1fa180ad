//! The printed texts of relations, summaries, plans, replays, arrays and demos.
#![tactic(auto)]

pub mod arrays;
pub mod counts;
pub mod demo;
pub mod laws;
pub mod looks;
mod pieces;
pub mod plan;
pub mod relation;
pub mod summary;
