//! The exact closure of a system of constraints: its least bounds, and how each is derived.
#![tactic(auto)]

pub mod closure;
mod engine;
pub mod laws;
pub mod order;
mod passes;
mod run;
mod taking;
mod workings;

pub use bound_plain::plain as plain;
pub use bound_ways::over as over;
