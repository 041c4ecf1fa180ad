//! Expressions over locals, registers and words that are kept from the start.
#![tactic(auto)]

pub mod evaluate;
pub mod laws;
