//! Properties of index arrays: what they mean, and the rules that follow from them.
#![tactic(auto)]

mod build;
pub mod certificate;
pub mod entry;
pub mod groups;
pub mod instances;
pub mod lines;
mod pairs;
mod places;
pub mod rule;
mod segment;
pub mod small;
