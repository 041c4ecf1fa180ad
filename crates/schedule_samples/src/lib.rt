//! Graphs and counts that the tests and benches of schedules make again and again.
#![tactic(auto)]

pub mod counts;
pub mod made;
pub mod shapes;
pub mod weights;
pub mod worked;
