//! Laws of the table of rules: each line is sound, and so is each instance that is listed.
#![tactic(auto)]

pub mod laws;
