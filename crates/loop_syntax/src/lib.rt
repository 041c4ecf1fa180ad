//! The text of a loop nest, read to the nest that it is.
#![tactic(auto)]

mod body;
mod build;
mod constants;
mod counts;
pub mod items;
pub mod laws;
mod names;
pub mod numbered;
pub mod read;
pub mod refusal;
mod resolve;
pub mod scope;
mod standing;
mod written;
