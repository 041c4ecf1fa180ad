//! Systems of constraints on which tests and benches of rules and closures run: two of a worked loop,
//! chains of loops, many entries of one array, and systems made from a counter.
#![tactic(auto)]

pub mod atoms;
pub mod chains;
pub mod forward;
pub mod listing;
pub mod made;
pub mod many;
pub mod system;
