//! The core in one thread: one event of one worker at a time.
#![tactic(auto)]

pub mod action;
pub mod machine;
pub mod replay;
pub mod standings;
