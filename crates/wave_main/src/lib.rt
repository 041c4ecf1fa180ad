//! What the program does: words and files to a text on standard output, or one line that says why not.
#![tactic(auto)]

mod bind;
mod bounds;
mod check;
mod commands;
mod demo;
mod explain;
mod fault;
pub mod fetch;
mod input;
pub mod laws;
mod line;
mod loops;
mod matrices;
mod order;
mod plan;
mod replay;
mod report;
mod run;
mod show;
pub mod status;
pub mod top;
mod words;
pub mod work;
