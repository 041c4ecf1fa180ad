//! The verdicts on the relations of a nest: dropped, covered or kept.
#![tactic(auto)]

mod again;
mod all;
mod covers;
mod fresh;
mod judge;
pub mod laws;
mod refuted;
pub mod verdict;
pub mod verdicts;
