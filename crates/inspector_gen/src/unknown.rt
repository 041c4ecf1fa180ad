// The variables of a relation.
use loop_core::nest::{Term, VarId};

/// What a variable runs over: the rows, or the numbers from one term up to but not including another.
#[derive(Drop)]
pub enum Span {
    Rows,
    Between { lo: Term, hi: Term },
}

/// A variable of a relation, with what it runs over.
#[derive(Drop)]
pub struct Unknown {
    pub var: VarId,
    pub span: Span,
}
