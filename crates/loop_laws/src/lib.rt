//! What holds of loop texts that are read and printed.
#![tactic(auto)]

pub mod laws;
