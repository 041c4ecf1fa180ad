//! Inspection plans: their operations, and the pairs of rows that they emit.
#![tactic(auto)]

mod counted;
mod inverse;
mod invert;
mod joined;
pub mod laws;
mod locate;
mod needed;
pub mod pairs;
mod pieces;
pub mod plan;
mod run;
mod shared;
mod sorted;
pub mod split;
mod tried;
mod tries;
mod value;
