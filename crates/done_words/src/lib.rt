//! The words that workers share: between any two steps they are a reached state of the core.
#![tactic(auto)]

pub mod board;
mod copying;
pub mod laws;
mod layout;
pub mod main_seat;
mod plays;
mod ranges;
mod rule;
mod shared;
mod view;
mod words;
pub mod work_seat;
