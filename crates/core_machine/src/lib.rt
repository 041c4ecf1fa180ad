//! The core: every interleaving of the workers' word steps, one event at a time.
#![tactic(auto)]

pub mod cores;
pub mod laws;
mod shared;
pub mod work;
