// Lists of steps that show that a constraint is derivable.
use loop_core::nest::Atom;
use sqlite_items::Items;

/// A step, which gives one constraint. Steps are named by their numbers, from 0.
#[derive(Drop)]
pub enum Step {
    /// The constraint of that number of the base.
    Base(u64),
    /// `a - a <= 0`.
    Same(Atom),
    /// The sum of two earlier steps, of which the first ends where the second begins.
    Sum(u64, u64),
    /// An earlier step with a right side that is at least its own.
    Weaken(u64, i64),
    /// A result of an instance: the instance, the result, and an earlier step for each premise.
    Rule(u64, u64, Items<u64>),
}

/// A list of steps.
#[derive(Drop)]
pub struct Cert {
    pub steps: Items<Step>,
}
