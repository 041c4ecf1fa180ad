//! Certificates cut down to the steps that their last one needs.
#![tactic(auto)]

mod kept;
mod needed;
pub mod prune;
