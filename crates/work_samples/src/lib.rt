//! Fit works from texts, and orders of workers that are drawn, for tests and measurements.
#![tactic(auto)]

pub mod draws;
pub mod orders;
mod planned;
pub mod unfit;
pub mod works;
