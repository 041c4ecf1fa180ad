// The lines of a nest's body with what stands round them and the brackets on them.
use crate::system::Reference;
use loop_core::nest::{Rel, Term};
use sqlite_items::Items;
use wave_base::types::ArrayId;

/// What stands round a line: a loop, named by its line, with its bounds, or a guard.
#[derive(Drop)]
pub enum Around {
    Loop { line: u16, lo: Term, hi: Term },
    Guard { rel: Rel, left: Term, right: Term },
}

/// What a bracket is for: the entry of an index array in a term, the word of a data array that an
/// expression reads, or the place that a statement sets.
#[derive(Clone, Copy, Debug, PartialEq, Eq)]
pub enum Usage {
    Entry,
    Reads,
    Sets,
}

/// What is written in a bracket: an array at a term, and what for.
#[derive(Drop)]
pub struct Access {
    pub array: ArrayId,
    pub at: Term,
    pub usage: Usage,
}

/// A bracket: an array at a term, with its number among the opening brackets of its line, from 1.
#[derive(Drop)]
pub struct Bracket {
    pub number: u16,
    pub array: ArrayId,
    pub at: Term,
    pub usage: Usage,
}

/// A line of the body: what stands round it, from the outside in, and the brackets on it, from left
/// to right.
#[derive(Drop)]
pub struct Spot {
    pub line: u16,
    pub around: Items<Around>,
    pub brackets: Items<Bracket>,
}

/// A reference with its term and what stands round its line, from the outside in.
#[derive(Drop)]
pub struct Site {
    pub reference: Reference,
    pub at: Term,
    pub around: Items<Around>,
}
