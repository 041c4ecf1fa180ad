//! The inspection plan of a relation.
#![tactic(auto)]

mod entries;
mod fixed;
mod kind;
mod known;
pub mod laws;
mod operations;
mod order;
pub mod plain;
pub mod plan;
mod steps;
mod tests;
mod turn;
mod unknown;
mod variables;
mod ways;
