//! The arrays of a nest, from a matrix and the words of files.
#![tactic(auto)]

pub mod bind;
mod files;
pub mod laws;
mod lists;
pub mod shape;
