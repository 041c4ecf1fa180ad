//! The outside as three traits: named files, a stream to write to, and a gate before each task.
#![tactic(auto)]

pub mod failed;
pub mod file_library;
pub mod gate;
pub mod library;
pub mod mem_library;
pub mod mem_sink;
pub mod put_all;
pub mod read_all;
pub mod sink;
pub mod std_sink;
