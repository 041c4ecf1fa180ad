//! The check of certificates, which trusts nobody who makes one.
#![tactic(auto)]

pub mod check;
pub mod laws;
pub mod refusal;
mod step;
