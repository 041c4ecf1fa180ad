//! Acceptance: every access of a nest stays inside its list, whatever arrays pass its properties.
#![tactic(auto)]

pub mod accept;
mod closing;
mod counting;
mod first;
pub mod laws;
pub mod refusal;
mod same;
