// What a seat knows. No value of these types is made.
use core_machine::work::Work;
use std::collections::LinkedList;

/// What main knows: how many workers were made, and which were joined.
pub struct Lead {
    pub work: Work,
    pub made: u64,
    pub joined: LinkedList<u64>,
}

/// What a worker knows: its place in its script, its registers, and its looks that didn't pass: how many,
/// and the last of them as the worker looked at, the count seen and the count needed.
pub struct Doing {
    pub work: Work,
    pub worker: u64,
    pub place: u64,
    pub registers: LinkedList<i64>,
    pub misses: u64,
    pub last_miss: (u64, u64, u64),
}

pub enum View {
    Spent,
    Main(Lead),
    Worker(Doing),
}
