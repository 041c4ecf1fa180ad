//! Reads the text of Matrix Market files: whole-number matrices by coordinates, and whole-number vectors.
#![tactic(auto)]

mod entries;
mod entry;
mod head;
mod header;
pub mod matrix;
mod next;
pub mod refusal;
mod size;
pub mod triples;
mod values;
pub mod vector;
