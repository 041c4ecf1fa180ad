//! The lines of a loop text: their words and signs, their forms, and where they stand.
#![tactic(auto)]

pub mod block;
mod expr;
mod forms;
pub mod laws;
mod lexer;
pub mod line;
mod number;
pub mod place;
pub mod refusal;
mod sign;
mod term;
mod token;
pub mod tree;
mod word;
