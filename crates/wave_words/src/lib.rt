//! The words of the command line: the commands' forms, and the first wrong or missing word.
#![tactic(auto)]

pub mod form;
pub mod slot;
pub mod usage;
